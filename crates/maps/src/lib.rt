// The map of a run: its refusals, and its 352 bytes.
#![tactic(auto)]

mod lows; // lows.rt: the lowest same item of each unknown
mod rows; // rows.rt: the rows of the map

ghost use Rattle.std.specs.Prelude.{◌≡◌};
ghost use Rattle.maps.specs.Bytes.{told, map_bytes_of};

use paper::Refusal;
use rows::draw;

// The map of a run that is over, or the refusal; a refusal leaves the map's bytes. Both lengths are tested alike: `ok_or(..)?` would do for the
// run, but says nothing of what a `&mut` leaves.
pub fn map(run: &[u8], map: &mut [u8]) -> Result<(), Refusal>
    ensures { told result map.new ≡ map_bytes_of run.now map.old }
{
    let Some(run) = run.as_array() else {
        return Err(Refusal::WrongLength);
    };
    let Some(map) = map.as_mut_array() else {
        return Err(Refusal::WrongLength);
    };
    if !soundness::sound(run) {
        return Err(Refusal::NotSound);
    }
    if layout::has_clashed(run) {
        return Err(Refusal::HasClashed);
    }
    if layout::count(run) != 0 {
        return Err(Refusal::ItemsPending);
    }
    draw(run, map);
    Ok(())
}
