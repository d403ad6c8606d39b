// The cutter and lists of calls, for the comparison.
ghost use Rattle.std.specs.Prelude.{◌≡◌, ◌≤◌, length};
ghost use Rattle.wire.specs.Streams.{front_of};
ghost use Rattle.compared.specs.Cutting.{number, kind_after, count_after, place_after, tag_after};

use crate::asked::{Asked, next_asked};
use crate::taken::Taken;
use base::BASE;
use replay::{Answer, Form, make};
use wire::{Piece, cut, le_put};

// How many bytes an answer has.
const ANSWER: usize = 16;

// Cuts the first frame off a stream: 0, whether there is one and how long it is, or how many bytes are missing; or the number of the refusal, with its place and tag. The C interface takes numbers.
#[unsafe(no_mangle)]
pub extern "C" fn compared_cut(
    stream: &[u8],
    kind: &mut u8,
    count: &mut usize,
    place: &mut usize,
    tag: &mut u32,
) -> u8
    ensures answer { result ≡ number (front_of stream.now) }
    ensures told_kind { kind.new ≡ kind_after (front_of stream.now) kind.old }
    ensures told_count { count.new ≡ count_after (front_of stream.now) count.old }
    ensures told_place { place.new ≡ place_after (front_of stream.now) place.old }
    ensures told_tag { tag.new ≡ tag_after (front_of stream.now) tag.old }
{
    match cut(stream) {
        Ok(Piece::Missing(missing)) => {
            *kind = 0;
            *count = missing;
            0
        }
        Ok(Piece::Frame { frame, rest: _ }) => {
            *kind = 1;
            *count = frame.len();
            0
        }
        Err(refusal) => {
            *place = refusal.place;
            *tag = refusal.tag;
            refusal.reason.number()
        }
    }
}

// Writes an answer: its outcome, the reason, two zeros, the tag, the place. The C interface takes numbers.
fn put_answer(to: &mut [u8], answer: Answer)
    requires { 16 ≤ length to.old }
    ensures { length to.new ≡ length to.old }
{
    to[..ANSWER].fill(0);
    match answer {
        Answer::Accepted => {}
        Answer::OutOfTurn => to[0] = 2,
        Answer::Refused(refusal) => {
            to[0] = 1;
            to[1] = refusal.reason.number();
            le_put(&mut to[4..8], refusal.tag as u64);
            le_put(&mut to[8..16], refusal.place as u64);
        }
    }
}

// Does what is asked.
fn done(dictionary: &[u8], buffer: &mut [u8], form: Form, asked: Asked<'_>) -> (Form, Answer) {
    match asked {
        Asked::Call(call) => make(dictionary, &BASE, buffer, form, call),
        Asked::Poke { place, byte } => {
            if let Some(old) = buffer.get_mut(place as usize) {
                *old = byte;
            }
            (form, Answer::Accepted)
        }
    }
}

// Makes the calls of a list, from no form on, and writes an answer of 16 bytes for each: 0 where all are made, 1 where what follows is no call, 2 where there is no room for the next answer. The C interface takes numbers.
#[unsafe(no_mangle)]
pub extern "C" fn compared_run(
    dictionary: &[u8],
    buffer: &mut [u8],
    calls: &[u8],
    answers: &mut [u8],
) -> u8 {
    let mut form = Form::None;
    let mut left = Taken { rest: calls };
    for answer in answers.chunks_exact_mut(ANSWER) {
        if left.rest.is_empty() {
            break;
        }
        let Some(asked) = next_asked(&mut left) else {
            form.abandon();
            return 1;
        };
        let (next, said) = done(dictionary, buffer, form, asked);
        form = next;
        put_answer(answer, said);
    }
    form.abandon();
    if left.rest.is_empty() {
        return 0;
    }
    match next_asked(&mut left) {
        None => 1,
        Some(_) => 2,
    }
}
