// The machine that a file is fed to, a window at a time. What it keeps between windows is a small state; the bytes that it has not taken yet are the
// caller's to keep, and to hand over again with more after them.
ghost use Rattle.std.specs.Prelude.{◌≡◌, ◌&&◌, true, List, [], ℕ, ◌+◌, ◌≤◌, ◌<◌, ◌^◌, leb, length};
ghost use Rattle.arena.specs.Record.{holding};
ghost use Rattle.arena.specs.Creation.{fresh_head};
ghost use Rattle.arena.specs.Sound.{sound_of};
ghost use Rattle.requests.specs.Machine.{ending_text, heading, running, stopped};
ghost use Rattle.requests.specs.Front.{front_of};
ghost use Rattle.requests.specs.Window.{line_room, passed_of};
ghost use Rattle.requests.specs.Inner.{Put};
ghost use Rattle.requests.specs.Feed.{is_bad, step_at, step_of, ready, final_text, end_room, stage_said, memory_in, start_state, ThroughLent, Came};

use crate::header::{HEADER, Header, MOST_REGION, read_header};
use crate::print::{put_held, put_numbered, put_text};
use crate::read::read_front;
use crate::window::{LINE, Progress, run_window};
use crate::{Ending, Stage};
use arena::creation::emptied;
use arena::ladder::held_bytes;
use arena::lent::Inside;
use arena::sound::is_sound;
use arena::{Arena, Head};

// The stage, the next request's number, and the record.
#[derive(Clone, Copy)]
pub struct State {
    pub stage: Stage,
    pub number: usize,
    pub arena: Arena,
}

// The state after a window, how many of its bytes were taken, and how many of the output's are written.
#[derive(Clone, Copy)]
pub struct Fed {
    pub state: State,
    pub taken: usize,
    pub written: usize,
}

// The record of a refused creation.
fn no_arena() -> Arena
    ensures { result ≡ holding (fresh_head 0 1) [] }
{
    emptied(Head {
        region: 0,
        minimum: 1,
        limited: 0,
        limit: 0,
        count: 0,
    })
}

// Before the first byte.
pub fn start() -> State
    ensures { result ≡ start_state }
{
    State {
        stage: Stage::Heading,
        number: 1,
        arena: no_arena(),
    }
}

// Whether feeding takes what it can: bytes for the longest region, 65,536, are lent, the record is sound and its region among them, and the number can count
// every request of the window.
#[tactic(auto, unfolding(crate::specs::Feed::ready))]
pub fn is_ready(state: &State, lent: &[u8], window: &[u8]) -> bool
    ensures { result ≡ ready state.now.arena state.now.number (length lent.now) (length window.now) }
{
    MOST_REGION <= lent.len()
        && state.arena.head.region <= lent.len()
        && state.number <= usize::MAX - window.len()
        && is_sound(&state.arena.lent())
}

// So many bytes are taken, and change nothing.
fn stay(state: State, taken: usize) -> Fed
    ensures { (result.state ≡ state) × (result.taken ≡ taken) × (result.written ≡ 0) }
{
    Fed {
        state,
        taken,
        written: 0,
    }
}

// A whole header opens the run or stops it.
fn open(state: State, window: &[u8], out: &mut [u8]) -> Fed
    requires { stage_said state.stage ≡ heading }
    ensures { (lent : List ℕ) → Came (step_at heading lent state.number (memory_in state.arena lent) window.now (length out.old)) lent out.old result lent out.new }
{
    if window.len() < HEADER {
        return stay(state, 0);
    }
    if out.len() < LINE {
        return stay(state, 0);
    }
    let Some(Header { minimum, region }) = read_header(window) else {
        let written = put_text(out, 0, b"0 bad header\n");
        return Fed {
            state: State {
                stage: Stage::Stopped,
                number: 1,
                arena: no_arena(),
            },
            taken: HEADER,
            written,
        };
    };
    let made = Arena::with_min_align_and_capacity(region, minimum, 0);
    Fed {
        state: State {
            stage: Stage::Running,
            number: 1,
            arena: made.arena,
        },
        taken: HEADER,
        written: 0,
    }
}

// The window, run in the region's part of the lent bytes.
fn run_lent(arena: Arena, lent: &mut [u8], number: usize, window: &[u8], out: &mut [u8]) -> Progress
    requires { (sound_of arena ≡ true) × (arena.head.region ≤ length lent.old) × (number + length window.now < 2 ^ 64) }
    ensures through_lent { ThroughLent (passed_of (length out.old) number (memory_in arena lent.old) window.now) lent.old out.old result lent.new out.new }
    ensures taken_in_bounds { (result.taken ≤ length window.now) × (result.written ≤ length out.new) }
{
    let region = arena.head.region;
    run_window(arena, &mut lent[..region], number, window, out)
}

// Whether a bad record comes next, and its line has room.
#[tactic(auto, unfolding(crate::specs::Inner::front_said))]
fn is_bad_next(room: usize, rest: &[u8]) -> bool
    ensures { result ≡ leb line_room room && is_bad (front_of rest.now) }
{
    LINE <= room && matches!(read_front(rest), Err(Ending::BadRecord))
}

// The whole records of the window are run. A bad one after them stops the run.
fn run_on(state: State, lent: &mut [u8], window: &[u8], out: &mut [u8]) -> Fed
    requires { (sound_of state.arena ≡ true) × (state.arena.head.region ≤ length lent.old) × (state.number + length window.now < 2 ^ 64) }
    ensures { Came (step_at running lent.old state.number (memory_in state.arena lent.old) window.now (length out.old)) lent.old out.old result lent.new out.new }
{
    let Progress {
        arena,
        number,
        taken,
        written,
    } = run_lent(state.arena, lent, state.number, window, out);
    if is_bad_next(out.len() - written, &window[taken..]) {
        let end = put_numbered(out, written, number, b" bad record\n");
        return Fed {
            state: State {
                stage: Stage::Stopped,
                number,
                arena,
            },
            taken: window.len(),
            written: end,
        };
    }
    Fed {
        state: State {
            stage: Stage::Running,
            number,
            arena,
        },
        taken,
        written,
    }
}

// Takes what it can of the window: nothing while its front is not a whole header or record, or fewer than 64 bytes of the output are free. What is
// not ready stays as it is.
#[tactic(auto, unfolding(crate::specs::Feed::stage_said, crate::specs::Feed::ready))]
pub fn feed(state: State, lent: &mut [u8], window: &[u8], out: &mut [u8]) -> Fed
    ensures came { Came (step_of (ready state.arena state.number (length lent.old) (length window.now)) (stage_said state.stage) lent.old state.number (memory_in state.arena lent.old) window.now (length out.old)) lent.old out.old result lent.new out.new }
    ensures taken_in_bounds { (result.taken ≤ length window.now) × (result.written ≤ length out.new) }
{
    if !is_ready(&state, lent, window) {
        return stay(state, 0);
    }
    match state.stage {
        Stage::Heading => open(state, window, out),
        Stage::Running => run_on(state, lent, window, out),
        // Every byte is swallowed.
        Stage::Stopped => stay(state, window.len()),
    }
}

// What the end of the input adds in a run, by what stands at the front of the bytes that were never taken.
// Into a lent buffer, as `print` says.
#[tactic(auto, unfolding(crate::specs::Inner::front_said, crate::specs::Text::ending_line, crate::specs::Machine::ending_at, crate::specs::Machine::ending_text, calls::specs::Bytes::written))]
fn put_unfinished(out: &mut [u8], number: usize, rest: &[u8]) -> usize
    requires { end_room ≤ length out.old }
    ensures { Put out.old 0 (ending_text running number rest.now) out.new result }
{
    match read_front(rest) {
        Ok(_) => 0,
        Err(Ending::Complete) => 0,
        Err(Ending::CutOff) => put_numbered(out, 0, number, b" cut off\n"),
        Err(Ending::BadRecord) => put_numbered(out, 0, number, b" bad record\n"),
    }
}

#[tactic(auto, unfolding(crate::specs::Feed::stage_said, crate::specs::Machine::ending_text, calls::specs::Bytes::written))]
fn put_ending(out: &mut [u8], stage: Stage, number: usize, rest: &[u8]) -> usize
    requires { end_room ≤ length out.old }
    ensures { Put out.old 0 (ending_text (stage_said stage) number rest.now) out.new result }
{
    match stage {
        Stage::Heading => put_text(out, 0, b"0 bad header\n"),
        Stage::Running => put_unfinished(out, number, rest),
        Stage::Stopped => 0,
    }
}

// The bytes of the output that the end of the input may take.
pub const END: usize = 128;

// What the end of the input adds, with these bytes left, which feeding takes nothing of: nothing where the output has fewer than 128 bytes, or the record
// is not sound. What could still be fed is not looked for.
pub fn finish(state: State, rest: &[u8], out: &mut [u8]) -> usize
    ensures put { Put out.old 0 (final_text (leb end_room (length out.old) && sound_of state.arena) (stage_said state.stage) state.number state.arena rest.now) out.new result }
    ensures upper_bound { result ≤ length out.new }
{
    if out.len() < END {
        return 0;
    }
    let Some(sound) = state.arena.sound() else {
        return 0;
    };
    let ended = put_ending(out, state.stage, state.number, rest);
    let held = held_bytes(&Inside { lent: sound.lent });
    put_held(out, ended, held, state.arena.head.count)
}
