//! Compaction of the arena.

ghost use Rattle.std.specs.Prelude.{◌≡◌, length};
ghost use Rattle.wf_sat_check.specs.Lrat.Slots.{AreLaid, ArePacked, slots_in};

use wf_sat_text::drat::Code;

/// Moves the clauses of `arena` together, so that each begins right after the one before, and cuts
/// off the rest. `places` gives the index of each clause's literals, or 0 if there is no clause,
/// and is updated.
pub(crate) fn pack(arena: &mut Vec<Code>, places: &mut [u32])
    requires { AreLaid arena.old.items 0 places.old (length arena.old.items) }
    ensures packed { ArePacked arena.new.items 0 places.new (length arena.new.items) }
    ensures same { slots_in arena.new.items places.new ≡ slots_in arena.old.items places.old }
{
    let mut end = 0;
    'places: for number in 0..places.len() {
        let place = places[number] as usize;
        if place > 0 {
            let past = place + arena[place - 1] as usize;
            arena.copy_within(place - 1..past, end);
            places[number] = (end + 1) as u32;
            end += past + 1 - place;
        }
    }
    arena.truncate(end);
}
