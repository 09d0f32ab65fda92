// A list of requests to the guide alone, as numbers, run on a freshly opened guide.
#![tactic(auto)]

ghost use Rattle.std.specs.Prelude.{◌≡◌, ◌+◌, ◌*◌, ◌/◌, ◌≤◌, length};
ghost use Rattle.rules.specs.Answer.{number};
ghost use Rattle.alone.specs.Held.{HeldOver};
ghost use Rattle.alone.specs.Served.{ServedOver};
ghost use Rattle.alone_list.specs.Requests.{request_size, answer_size, request_at, well_formed};
ghost use Rattle.alone_list.specs.Replay.{ReplaysOver};
ghost use Rattle.alone_list.specs.Put.{Put};
ghost use Rattle.alone_list.specs.Told.{reply_of};
ghost use Rattle.alone_list.specs.Blocks.{Head, block_of};
ghost use Rattle.alone_list.specs.Running.{RunsOver};

use alone::Alone;
use rules::Refusal;
use window::Location;

// The numbers of a request, and of the answer to one.
pub const REQUEST_SIZE: usize = 6;

pub const ANSWER_SIZE: usize = 37;

// The kinds of requests: a flush, a push with no `after`, a push after (span, position). They stand in the caller's list: the C interface.
const FLUSH: u32 = 0;

const PUSH: u32 = 1;

const PUSH_AFTER: u32 = 2;

// The state after a request, with the location that it was given, or its refusal.
#[derive(Clone, Copy)]
struct Served {
    alone: Alone,
    reply: Result<Option<Location>, Refusal>,
}

// Serves a request: kind, span, position, value, added, accepted.
fn serve(
    x: Alone,
    spans: &mut [u32],
    order: &mut [u32],
    tally: &mut [u32],
    request: [u32; REQUEST_SIZE],
) -> Served
    requires { HeldOver x spans order tally }
    ensures { ServedOver (request_at request 0) x result.alone spans order tally (reply_of result.reply) }
{
    let [kind, span, pos, value, added, accepted] = request;
    if kind == FLUSH {
        return match alone::flush(x, spans, order, tally) {
            Ok(alone) => Served {
                alone,
                reply: Ok(None),
            },
            Err(e) => Served {
                alone: x,
                reply: Err(e),
            },
        };
    }
    let after = if kind == PUSH {
        None
    } else {
        Some(Location { span, pos })
    };
    match alone::push(x, spans, order, tally, after, value, added, accepted) {
        Ok(r) => Served {
            alone: r.alone,
            reply: Ok(Some(r.at)),
        },
        Err(e) => Served {
            alone: x,
            reply: Err(e),
        },
    }
}

// The three numbers of a reply: the refusal's, or 0 with the location that was given, zeros where there is none.
fn told(reply: Result<Option<Location>, Refusal>) -> (u32, u32, u32)
    ensures { Head (reply_of reply) result.0 result.1 result.2 }
{
    match reply {
        Ok(Some(at)) => (0, at.span, at.pos),
        Ok(None) => (0, 0, 0),
        Err(e) => (e.into(), 0, 0),
    }
}

// The window's lengths from `at` on.
fn put_lens(answers: &mut [u32], at: usize, lens: [u16; window::SPANS])
    requires { at + 32 ≤ length answers.old }
    ensures { Put at lens answers.old answers.new }
{
    for (i, n) in lens.iter().enumerate() {
        answers[at + i] = u32::from(*n);
    }
}

// The answer to a request from `at` on: the reply's number and location, the order's length, span 0's number, the 32 lengths.
fn note(answers: &mut [u32], at: usize, a: Served)
    requires { at + answer_size ≤ length answers.old }
    ensures { Put at (block_of a.alone (reply_of a.reply)) answers.old answers.new }
{
    let (number, span, pos) = told(a.reply);
    let g = a.alone.guide;
    let w = g.window;
    answers[at..at + 5].copy_from_slice(&[number, span, pos, g.written, w.ids[0]]);
    put_lens(answers, at + 5, w.lens);
}

// Runs the requests, one after the other, and notes each answer.
fn run(
    x: Alone,
    spans: &mut [u32],
    order: &mut [u32],
    tally: &mut [u32],
    answers: &mut [u32],
    requests: &[u32],
)
    requires held_over { HeldOver x spans order tally }
    requires room { answer_size * (length requests.now / request_size) ≤ length answers.old }
    ensures { RunsOver x spans order tally answers requests.now (length requests.now / request_size) }
{
    let (requests, _) = requests.as_chunks::<REQUEST_SIZE>();
    let mut y = x;
    for (k, request) in requests.iter().enumerate() {
        let a = serve(y, spans, order, tally, *request);
        note(answers, ANSWER_SIZE * k, a);
        y = a.alone;
    }
}

// Whether the numbers are requests: whole ones, each of a known kind.
fn well_formed(requests: &[u32]) -> bool
    ensures { result ≡ well_formed requests.now }
{
    let (requests, rest) = requests.as_chunks::<REQUEST_SIZE>();
    rest.is_empty() && requests.iter().all(|r| r[0] <= PUSH_AFTER)
}

// Opens a guide and runs the requests on it; the numbers of refused requests stand in their answers. Refused, nothing was written: malformed
// for numbers that are no requests; what opening refuses; too short for too little room for the answers.
pub fn replay(
    p: u64,
    v: u64,
    requests: &[u32],
    spans: &mut [u32],
    order: &mut [u32],
    tally: &mut [u32],
    answers: &mut [u32],
) -> Result<(), Refusal>
    ensures { ReplaysOver p v requests.now (number result) spans order tally answers }
{
    if !well_formed(requests) {
        return Err(Refusal::Malformed);
    }
    alone::check_open(spans, order, tally, p, v)?;
    if answers.len() / ANSWER_SIZE < requests.len() / REQUEST_SIZE {
        return Err(Refusal::TooShort);
    }
    let x = alone::begin(tally, p, v);
    run(x, spans, order, tally, answers, requests);
    Ok(())
}
