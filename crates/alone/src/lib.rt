// The guide alone: opened over spans, order and tally; push with value, added and accepted from the caller, and lane 0; flush. Every call
// checks its own refusals and leaves state and storage as they were where it refuses. Spans, order and tally stay three slices: so they come
// from the caller of `guide_replay`, the C interface.
#![tactic(auto)]

ghost use Rattle.std.specs.Prelude.{◌≡◌, length};
ghost use Rattle.rules.specs.Alone.{Request};
ghost use Rattle.rules.specs.Answer.{number};
ghost use Rattle.window.specs.Location.{has, span_of, pos_of};
ghost use Rattle.alone.specs.Held.{HeldOver};
ghost use Rattle.alone.specs.Reply.{push_reply, alone_pushed, flush_reply, alone_flushed};
ghost use Rattle.alone.specs.Served.{ServedOver};
ghost use Rattle.alone.specs.Pushing.{pushing};
ghost use Rattle.alone.specs.Opening.{opening_number, alone_opened, Fits, Begins, OpensOver};

use buffer::Guide;
use entries::Entry;
use rules::Refusal;
use window::Location;

// The guide and how many pushes were accepted.
#[derive(Clone, Copy)]
pub struct Alone {
    pub guide: Guide,
    pub pushes: u32,
}

// The state after an accepted push, and the location that it was given.
#[derive(Clone, Copy)]
pub struct Pushed {
    pub alone: Alone,
    pub at: Location,
}

// Whether opening a guide over this storage is refused, and with what.
pub fn check_open(
    spans: &[u32],
    order: &[u32],
    tally: &[u32],
    p: u64,
    v: u64,
) -> Result<(), Refusal>
    ensures { number result ≡ opening_number p v spans.now order.now tally.now }
{
    alone_checks::check_open(
        entries::capacity(spans),
        entries::capacity(order),
        tally.len(),
        p,
        v,
    )
}

// A guide just opened, its counts set to 0, where opening it is accepted.
pub fn begin(tally: &mut [u32], p: u64, v: u64) -> Alone
    requires { Fits p v (length tally.old) }
    ensures { Begins p v result tally.old tally.new }
{
    tally[..p as usize + 1].fill(0);
    Alone {
        guide: guide::fresh(p as u32, v as u32),
        pushes: 0,
    }
}

// Opens a guide over its storage; its counts are set to 0.
pub fn open(
    spans: &[u32],
    order: &[u32],
    tally: &mut [u32],
    p: u64,
    v: u64,
) -> Result<Alone, Refusal>
    ensures { OpensOver p v (number result) (alone_opened result) spans.now order.now tally }
{
    check_open(spans, order, tally, p, v)?;
    Ok(begin(tally, p, v))
}

// Places a value, after a location where there is one.
pub fn push(
    x: Alone,
    spans: &mut [u32],
    order: &mut [u32],
    tally: &mut [u32],
    after: Option<Location>,
    value: u32,
    added: u32,
    accepted: u32,
) -> Result<Pushed, Refusal>
    requires { HeldOver x spans order tally }
    ensures { let q = pushing (has after) (span_of after) (pos_of after) value added accepted in ServedOver q x (alone_pushed x result) spans order tally (push_reply result) }
{
    let g = x.guide;
    let w = g.window;
    alone_checks::check_push(w.ids[window::LAST], w.ids[0], w.lens, g.v, x.pushes, after)?;
    let e = Entry {
        value,
        added,
        accepted,
        parallelism: 0,
        lane: 0,
    };
    let r = guide::push(g, spans, order, tally, after, e);
    let alone = Alone {
        guide: r.guide,
        pushes: x.pushes + 1,
    };
    Ok(Pushed { alone, at: r.at })
}

// Releases all 32 spans.
pub fn flush(
    x: Alone,
    spans: &mut [u32],
    order: &mut [u32],
    tally: &mut [u32],
) -> Result<Alone, Refusal>
    requires { HeldOver x spans order tally }
    ensures { ServedOver Request.flush x (alone_flushed x result) spans order tally (flush_reply result) }
{
    let w = x.guide.window;
    alone_checks::check_flush(w.ids[window::LAST])?;
    Ok(Alone {
        guide: guide::flush(x.guide, spans, order, tally),
        ..x
    })
}
