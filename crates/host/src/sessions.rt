// The session for a host that keeps it as words: those of the coordinates, and before them
//
//     n, k, c, side, weight, taken, closed, and the four words of the scale
//
// Numbers that are no side, weight or truth value give 255: no refusal, and nothing is touched.
use field::Element;
use ledger::Session;
use plan::Plan;
use table::Refusal;

// Words before the coordinates.
const HEAD: usize = 11;

// Words of the coordinates.
const COORDINATES: usize = plan::WORDS;

// No answer of a session's.
const NO_SESSION: u32 = 255;

// The scale as four words, and twelve arguments one by one: the C interface needs it.
#[unsafe(no_mangle)]
pub extern "C" fn host_session_open(
    point: &[u32],
    scale0: u32,
    scale1: u32,
    scale2: u32,
    scale3: u32,
    n: usize,
    columns: usize,
    side: u32,
    weight: u32,
    out: &mut [u32],
    head: &mut [u32; HEAD],
    coordinates: &mut [u32; COORDINATES],
) -> u32 {
    let Some(side) = by_number(side) else {
        return NO_SESSION;
    };
    let Some(weight) = by_number(weight) else {
        return NO_SESSION;
    };
    let scale = Element {
        c: [scale0, scale1, scale2, scale3],
    };
    let opened = session::open(n, columns, side, weight, scale, point, out);
    keep(opened, head, coordinates)
}

#[unsafe(no_mangle)]
pub extern "C" fn host_session_feed(
    piece: &[u32],
    out: &mut [u32],
    head: &mut [u32; HEAD],
    coordinates: &mut [u32; COORDINATES],
) -> u32 {
    let Some(s) = session_of(head, coordinates) else {
        return NO_SESSION;
    };
    keep(session::feed(s, piece, out), head, coordinates)
}

#[unsafe(no_mangle)]
pub extern "C" fn host_session_close(
    out: &mut [u32],
    head: &mut [u32; HEAD],
    coordinates: &mut [u32; COORDINATES],
) -> u32 {
    let Some(s) = session_of(head, coordinates) else {
        return NO_SESSION;
    };
    keep(session::close(s, out), head, coordinates)
}

// The element goes to `element`, where the call is accepted.
#[unsafe(no_mangle)]
pub extern "C" fn host_session_read(
    place: usize,
    out: &mut [u32],
    head: &mut [u32; HEAD],
    coordinates: &mut [u32; COORDINATES],
    element: &mut [u32; 4],
) -> u32 {
    let Some(s) = session_of(head, coordinates) else {
        return NO_SESSION;
    };
    host_answers::give_words(session::read(s, place, out), element)
}

// The session of these words; none where a number is no side, weight or truth value.
fn session_of(head: &[u32; HEAD], coordinates: &[u32; COORDINATES]) -> Option<Session> {
    let plan = Plan {
        n: head[0] as usize,
        k: head[1] as usize,
        columns: head[2] as usize,
        side: by_number(head[3])?,
        weight: by_number(head[4])?,
        scale: Element {
            c: [head[7], head[8], head[9], head[10]],
        },
        coordinates: *coordinates,
    };
    Some(Session {
        plan,
        taken: head[5] as usize,
        closed: truth_of(head[6])?,
    })
}

// The words become those of the session, where the call was accepted; the answer.
fn keep(
    given: Result<Session, Refusal>,
    head: &mut [u32; HEAD],
    coordinates: &mut [u32; COORDINATES],
) -> u32 {
    match given {
        Err(refusal) => refusal.number(),
        Ok(s) => {
            let point = s.plan.coordinates;
            *head = head_of(&s);
            *coordinates = point;
            0
        }
    }
}

fn head_of(s: &Session) -> [u32; HEAD] {
    let scale = s.plan.scale.c;
    [
        low(s.plan.n),
        low(s.plan.k),
        low(s.plan.columns),
        s.plan.side as u32,
        s.plan.weight as u32,
        low(s.taken),
        s.closed as u32,
        scale[0],
        scale[1],
        scale[2],
        scale[3],
    ]
}

// The side or the weight of this number; none where it has none.
fn by_number<T: TryFrom<u8, Error: Drop>>(number: u32) -> Option<T> {
    T::try_from(u8::try_from(number).ok()?).ok()
}

// By number: a truth value has no `TryFrom` of a number, and the record of C has a number for closed.
fn truth_of(number: u32) -> Option<bool> {
    match number {
        0 => Some(false),
        1 => Some(true),
        _ => None,
    }
}

// A session's numbers are at most 16 2^20.
fn low(n: usize) -> u32 {
    (n % 4294967296) as u32
}
