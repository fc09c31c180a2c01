// Each call made on the lent buffers, by what stands in its bytes; what is two bytes long there has its low byte first. A sheet lends
// any length of a buffer, so that the length stands beside it. `as` makes a u64 of a usize, as in `Line::new`.
ghost use Rattle.std.specs.Prelude.{◌≤◌, ◌<◌, length};

use super::calls::{Call, Kind};
use super::lines::Line;
use super::pieces;
use std::io;
use std::io::Print;

// One byte more than a call takes: so that a sheet can lend too many, too.
pub const RUN_SPACE: usize = layout::RUN_BYTES + 1;

pub const MAP_SPACE: usize = layout::MAP_BYTES + 1;

pub const FILE_SPACE: usize = paper::sizes::LONGEST_FILE + 1;

// The longest list of places.
const LIST_SPACE: usize = 16384;

// The places of a list, two bytes each, put into `places`; gives those that there are.
fn read_places<'a>(bytes: &[u8], places: &'a mut [u32; LIST_SPACE]) -> &'a [u32]
    ensures { length result.now ≤ LIST_SPACE }
{
    let pairs = bytes.chunks(2);
    let count = pairs.len().min(LIST_SPACE);
    for (place, pair) in places.iter_mut().zip(pairs) {
        *place = u32::from(pieces::two(pair, 0));
    }
    &places[..count]
}

// Statement: n (2), the file. The part of the file that it gives is hashed.
fn statement(bytes: &[u8]) -> Line {
    let n = pieces::number(bytes, 0);
    let file = pieces::rest(bytes, 2);
    let span = sceolandra::sc_statement(file, n);
    Line::new(span.start, span.size, reading::statement(file, n))
}

// Print: a file. What the map program prints of it comes before the line.
fn print(out: &impl Print, bytes: &[u8]) -> io::Result<Line> {
    mapping::print_file(out, bytes)?;
    Ok(Line::new(bytes.len(), 0, bytes))
}

// The buffers that the calls are lent, in whole or in part.
#[derive(Drop)]
pub struct Lent {
    pub run: [u8; RUN_SPACE],
    pub map: [u8; MAP_SPACE],
    pub file: [u8; FILE_SPACE],
}

impl Lent {
    // Load: how much of the run is lent (2), the file.
    fn load(&mut self, bytes: &[u8]) -> Line {
        let n = pieces::number(bytes, 0).min(RUN_SPACE);
        let reply = sceolandra::sc_load(pieces::rest(bytes, 2), &mut self.run[..n]);
        Line::new(reply.number, reply.position, &self.run)
    }

    // Step: how much of the run is lent (2), the place (2).
    fn step(&mut self, bytes: &[u8]) -> Line {
        let n = pieces::number(bytes, 0).min(RUN_SPACE);
        let reply = sceolandra::sc_step(&mut self.run[..n], pieces::number(bytes, 2));
        Line::new(reply.number, reply.rule, &self.run)
    }

    // List: how much of the run is lent (2), the places (2 each).
    fn list(&mut self, bytes: &[u8]) -> Line {
        let n = pieces::number(bytes, 0).min(RUN_SPACE);
        let mut places = [0u32; LIST_SPACE];
        let places = read_places(pieces::rest(bytes, 2), &mut places);
        let reply = sceolandra::sc_steps(&mut self.run[..n], places);
        Line::new(reply.number, reply.done, &self.run)
    }

    // Map: how much of the run is lent (2), how much of the map (2).
    fn map(&mut self, bytes: &[u8]) -> Line {
        let n = pieces::number(bytes, 0).min(RUN_SPACE);
        let k = pieces::number(bytes, 2).min(MAP_SPACE);
        let Lent { run, map, .. } = self;
        let reply = sceolandra::sc_map(&run[..n], &mut map[..k]);
        Line::new(reply.number, 0, map)
    }

    // Write: how much of the run is lent (2), how much of the file (2).
    fn write(&mut self, bytes: &[u8]) -> Line {
        let n = pieces::number(bytes, 0).min(RUN_SPACE);
        let k = pieces::number(bytes, 2).min(FILE_SPACE);
        let Lent { run, file, .. } = self;
        let reply = sceolandra::sc_write(&run[..n], &mut file[..k]);
        Line::new(reply.number, reply.length, file)
    }

    // The run's hash alone, with no numbers.
    fn hashed(&self) -> Line {
        Line::new(0, 0, &self.run)
    }

    // Poke: where (2), how many bytes of the run are laid (2), the pattern that is laid over and over; an empty one lays nothing.
    fn poke(&mut self, bytes: &[u8]) -> Line {
        let at = pieces::number(bytes, 0);
        let count = pieces::number(bytes, 2);
        let pattern = pieces::rest(bytes, 4);
        for (byte, v) in self
            .run
            .iter_mut()
            .skip(at)
            .take(count)
            .zip(pattern.iter().cycle())
        {
            *byte = *v;
        }
        self.hashed()
    }

    // Fill: the byte that every lent byte has from now on.
    fn fill(&mut self, bytes: &[u8]) -> Line {
        let v = pieces::byte(bytes, 0);
        self.run.fill(v);
        self.map.fill(v);
        self.file.fill(v);
        self.hashed()
    }

    // Loads the first n bytes of the file with v as its byte `at`. A run is hashed only if the file is accepted.
    fn load_changed(&mut self, n: usize, at: usize, v: u8) -> Line
        requires { (n ≤ FILE_SPACE) × (at < FILE_SPACE) }
    {
        let Lent { run, file, .. } = self;
        file[at] = v;
        let reply = sceolandra::sc_load(&file[..n], &mut run[..layout::RUN_BYTES]);
        let number = reply.number;
        let hash = if number == 0 { pieces::hash(run) } else { 0 };
        Line {
            number: number as u64,
            value: reply.position as u64,
            hash,
        }
    }

    // Damage: where (2), a file. The file is loaded with each of 256 values at that byte; the replies are hashed, and the runs are.
    fn damage(&mut self, bytes: &[u8]) -> Line {
        let at = pieces::number(bytes, 0);
        let n = pieces::copy(pieces::rest(bytes, 2), &mut self.file);
        let mut replies = 1;
        let mut runs = 1;
        if at < FILE_SPACE {
            for v in 0..=u8::MAX {
                let line = self.load_changed(n, at, v);
                replies = pieces::fold(pieces::fold(replies, line.number), line.value);
                runs = pieces::fold(runs, line.hash);
            }
        }
        Line {
            number: n as u64,
            value: replies,
            hash: runs,
        }
    }

    // One byte of the run, if there is such a byte.
    fn set(&mut self, at: usize, v: u8) {
        if let Some(byte) = self.run.get_mut(at) {
            *byte = v;
        }
    }

    // The number that an empty list of steps gets: 0 if the run is sound.
    fn tested(&mut self) -> u64 {
        let reply = sceolandra::sc_steps(&mut self.run[..layout::RUN_BYTES], &[]);
        reply.number as u64
    }

    // Sweep: where (2). The run is tested with each of 256 values at that byte, and is as before at the end; the numbers are hashed.
    fn sweep(&mut self, bytes: &[u8]) -> Line {
        let at = pieces::number(bytes, 0);
        let before = pieces::byte(&self.run, at);
        let mut numbers = 1;
        for v in 0..=u8::MAX {
            self.set(at, v);
            numbers = pieces::fold(numbers, self.tested());
        }
        self.set(at, before);
        Line {
            number: 0,
            value: numbers,
            hash: pieces::hash(&self.run),
        }
    }

    // Makes one call; where there is no such kind, the run is hashed.
    pub(crate) fn make(&mut self, out: &impl Print, call: Call) -> io::Result<Line> {
        let bytes = call.bytes;
        let line = match call.kind {
            Some(Kind::Load) => self.load(bytes),
            Some(Kind::Statement) => statement(bytes),
            Some(Kind::Step) => self.step(bytes),
            Some(Kind::List) => self.list(bytes),
            Some(Kind::Map) => self.map(bytes),
            Some(Kind::Write) => self.write(bytes),
            Some(Kind::Poke) => self.poke(bytes),
            Some(Kind::Fill) => self.fill(bytes),
            Some(Kind::Damage) => self.damage(bytes),
            Some(Kind::Sweep) => self.sweep(bytes),
            Some(Kind::Print) => print(out, bytes)?,
            None => self.hashed(),
        };
        Ok(line)
    }
}
