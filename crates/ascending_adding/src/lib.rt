// The placing of a registration that is added under the ascending profile.
#![tactic(auto)]

ghost use Rattle.std.specs.Prelude.{length};
ghost use Rattle.rules.specs.Calls.{add as add_call};
ghost use Rattle.lists.specs.Part.{Below};
ghost use Rattle.session.specs.Finding.{Leads};
ghost use Rattle.ascending_session.specs.Slices.{contents, SameSlices};
ghost use Rattle.ascending_session.specs.Promise.{MayDo, Does};
ghost use Rattle.ascending_adding.specs.Adding.{with_added};

use ascending_session::{Ascending, Storage};
use buffer::Guide;
use entries::Entry;
use lists::Registration;
use window::Location;

// The greatest location of the inputs, if there are any.
fn greatest_location(locations: &[u64], inputs: &[u64]) -> Option<Location>
    requires { Below (length locations.now) inputs.now }
    ensures { Leads locations.now inputs.now (length inputs.now) result }
{
    if inputs.len() == 0 {
        return None;
    }
    Some(tracking::unpacked(ascending_marks::top_among(locations, inputs)))
}

// The registration of an accepted add takes its place in the guide after its inputs, rows are filled for what the guide released, its
// outputs, which are the lowest places, take its location, and its row notes the order's length.
pub fn place_new(s: Ascending, storage: &mut Storage, r: Registration) -> Guide
    requires { MayDo (add_call r.lane r.inputs.now r.outputs.now) s (contents storage.old) }
    ensures added { Does (add_call r.entry.lane r.entry.inputs.now r.entry.outputs.now) s
        (with_added s result (length r.entry.inputs.now) (length r.entry.outputs.now)) (contents storage.old) (contents storage.new) }
    ensures same { SameSlices storage.old storage.new }
{
    let i = s.added;
    let n = s.guide.written;
    let after = greatest_location(&mut *storage.locations, r.inputs);
    let e = Entry {
        value: i,
        added: i,
        accepted: i,
        parallelism: 0,
        lane: r.lane as u16,
    };
    let d = guide::push(
        s.guide,
        storage.spans,
        storage.order,
        storage.tally,
        after,
        e,
    );
    let h = d.guide;
    records::fill_rows(&mut *storage.order, storage.rows, n, h.written - n);
    let loc = tracking::packed(d.at);
    ascending_marks::stamp_run(
        storage.marks,
        storage.locations,
        s.lowest,
        r.outputs.len(),
        loc,
    );
    records::note_written(storage.rows, i, h.written);
    h
}
