// A sheet's calls. A call is its kind, the count of its bytes (two bytes, low first) and its bytes.
ghost use Rattle.std.specs.Prelude.{length};
ghost use Rattle.std.specs.Iterator.{at_most};

use super::pieces;

// What a call asks for; a sheet has a number for each.
#[derive(Clone, Copy)]
pub enum Kind {
    Load,
    Statement,
    Step,
    List,
    Map,
    Write,
    Poke,
    Fill,
    Damage,
    Sweep,
    Print,
}

// A number that no kind has.
#[derive(Clone, Copy)]
pub struct NoKind;

impl TryFrom<u8> for Kind {
    type Error = NoKind;

    fn try_from(number: u8) -> Result<Kind, NoKind> {
        match number {
            1 => Ok(Kind::Load),
            2 => Ok(Kind::Statement),
            3 => Ok(Kind::Step),
            4 => Ok(Kind::List),
            5 => Ok(Kind::Map),
            6 => Ok(Kind::Write),
            7 => Ok(Kind::Poke),
            8 => Ok(Kind::Fill),
            9 => Ok(Kind::Damage),
            10 => Ok(Kind::Sweep),
            11 => Ok(Kind::Print),
            _ => Err(NoKind),
        }
    }
}

// One call of a sheet; none where there is no such kind.
#[derive(Clone, Copy)]
pub struct Call<'a> {
    pub kind: Option<Kind>,
    pub bytes: &'a [u8],
}

// A sheet from the next call on.
#[derive(Clone, Copy)]
pub struct Sheet<'a> {
    pub rest: &'a [u8],
}

impl<'a> Iterator for Sheet<'a> {
    type Item = Call<'a>;

    ghost remaining = { λ s. at_most (length s.rest.now) };

    fn next(&mut self) -> Option<Call<'a>> {
        let (kind, rest) = self.rest.split_first()?;
        let n = pieces::number(rest, 0);
        let rest = pieces::rest(rest, 2);
        self.rest = pieces::rest(rest, n);
        Some(Call {
            kind: Kind::try_from(*kind).ok(),
            bytes: pieces::first(rest, n),
        })
    }
}
