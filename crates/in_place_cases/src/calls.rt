// The calls in place, each on words of its own. Words that hold no tender are answered with the number
// 99, which no call gives.
use buffer_allotment::internal::preview_in;
use buffer_opening::internal::open_in;
use buffer_questions::is_tender;
use errors::Errors;
use in_place::internal::{allot_in, close_in, receive_in, revoke_in};
use outcomes::internal::Reply;
use places::Rate;
use refusals::{Refusal, number_of};
use terms::OpenRefusal;

// The number of the refusal in the answer to an opening, 0 where there is none.
pub fn opening_number(answer: Result<(), OpenRefusal>) -> u64 {
    match answer {
        Ok(()) => 0,
        Err(refusal) => terms::number_of(refusal),
    }
}

// The same of the answer to another call.
pub fn number(answer: Result<(), Refusal>) -> u64 {
    match answer {
        Ok(()) => 0,
        Err(refusal) => number_of(refusal),
    }
}

// The number of a refusal, and the words after the call.
#[derive(Clone, Copy)]
pub struct After {
    pub number: u64,
    pub words: [u64; 1560],
}

// Opens a tender.
pub fn open(before: [u64; 1560], a: [u8; 225], codes: &[u32], limits: &[u64]) -> After {
    let mut words = before;
    let answer = open_in(&mut words, &a, codes, limits);
    After {
        number: opening_number(answer),
        words,
    }
}

// Closes a tender.
pub fn close(before: [u64; 1560], date: u64, time: u64) -> After {
    let mut words = before;
    if !is_tender(&words) {
        return After { number: 99, words };
    }
    let answer = close_in(&mut words, date, time);
    After {
        number: number(answer),
        words,
    }
}

// Revokes a tender.
pub fn revoke(before: [u64; 1560]) -> After {
    let mut words = before;
    if !is_tender(&words) {
        return After { number: 99, words };
    }
    let answer = revoke_in(&mut words);
    After {
        number: number(answer),
        words,
    }
}

// What an allotment or a preview gives too.
#[derive(Clone, Copy)]
pub struct Awarded {
    pub number: u64,
    pub words: [u64; 1560],
    pub awards: [u64; 640],
    pub marginal: Option<Rate>,
}

// What an answer gives, with the awards and the words after it.
fn given_by(
    answer: Result<Option<Rate>, Refusal>,
    words: [u64; 1560],
    awards: [u64; 640],
) -> Awarded {
    match answer {
        Ok(marginal) => Awarded {
            number: 0,
            words,
            awards,
            marginal,
        },
        Err(refusal) => Awarded {
            number: number_of(refusal),
            words,
            awards,
            marginal: None,
        },
    }
}

// Words that hold no tender.
fn no_tender(words: [u64; 1560]) -> Awarded {
    Awarded {
        number: 99,
        words,
        awards: [0u64; 640],
        marginal: None,
    }
}

// Allots a tender.
pub fn allot(before: [u64; 1560]) -> Awarded {
    let mut words = before;
    if !is_tender(&words) {
        return no_tender(words);
    }
    let mut awards = [0u64; 640];
    let answer = allot_in(&mut words, &mut awards);
    given_by(answer, words, awards)
}

// Previews a tender.
pub fn preview(words: [u64; 1560]) -> Awarded {
    if !is_tender(&words) {
        return no_tender(words);
    }
    let mut awards = [0u64; 640];
    let answer = preview_in(&words, &mut awards);
    given_by(answer, words, awards)
}

// How much of a message is received and when, and how much room there is for the reply.
#[derive(Clone, Copy)]
pub struct Reception {
    pub length: usize,
    pub date: u64,
    pub time: u64,
    pub room: usize,
}

// A whole message on document 01's day, with room of 438 bytes.
pub fn at(time: u64) -> Reception {
    Reception {
        length: 339,
        date: 12032012,
        time,
        room: 438,
    }
}

// The answer to a reception, with its reply space and the words after it.
#[derive(Clone, Copy)]
pub struct Replied {
    pub answer: Result<Reply, Refusal>,
    pub space: [u8; 438],
    pub words: [u64; 1560],
}

// Receives a message. For words that hold no tender the reply has the length 99, which none has.
pub fn receive(before: [u64; 1560], m: &[u8], at: Reception) -> Replied {
    let mut words = before;
    let room = at.room.min(438);
    let mut space = [238u8; 438];
    if !is_tender(&words) {
        return Replied {
            answer: Ok(Reply {
                errors: Errors::none(),
                length: 99,
            }),
            space,
            words,
        };
    }
    let answer = receive_in(&mut words, m, at.date, at.time, &mut space[0..room]);
    Replied {
        answer,
        space,
        words,
    }
}
