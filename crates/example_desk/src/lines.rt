// What is printed of an answer and of an allotment.
use book::Book;
use errors::Errors;
use places::Rate;
use std::io;
use tender::{Awarded, Received, Reply, number_of};

// That a call was accepted.
pub fn accepted(rt: &impl Print) -> io::Result<()> {
    println!(rt; " accepted")
}

// That a call was refused, and the number with which it was.
pub fn refused(rt: &impl Print, number: u64) -> io::Result<()> {
    println!(rt; " refused with {number}")
}

// The codes of the errors.
fn codes(rt: &impl Print, e: Errors) -> io::Result<()> {
    for code in e.as_slice() {
        print!(rt; " {code}")?;
    }
    Ok(())
}

// That a message was confirmed, or the errors with which it was returned, and the length of the reply; or the number with which the reception was refused.
pub fn received(rt: &impl Print, r: Received) -> io::Result<()> {
    match r.answer {
        Ok(reply) => replied(rt, reply),
        Err(refusal) => refused(rt, number_of(refusal)),
    }
}

// The same of a reception that was not refused.
fn replied(rt: &impl Print, reply: Reply) -> io::Result<()> {
    let errors = reply.errors;
    if errors.is_empty() {
        print!(rt; " confirmed")?;
    } else {
        print!(rt; " returned with")?;
        codes(rt, errors)?;
    }
    println!(rt; ", reply of {} bytes", reply.length)
}

// Every award above zero, in book order: code, place from 1, rate in hundred-thousandths of a percent and eurocents.
pub fn awards(rt: &impl Print, book: Book, a: Awarded) -> io::Result<()> {
    for (i, award) in a.awards.iter().enumerate() {
        if 0 < award.0 {
            let code = book.codes[i / 10];
            let place = i % 10 + 1;
            let rate = book.rates[i].0;
            println!(rt;
                "award to {code} place {place} rate {rate} cents {}",
                award.0
            )?;
        }
    }
    Ok(())
}

// The marginal rate, or that there is none.
pub fn marginal(rt: &impl Print, m: Option<Rate>) -> io::Result<()> {
    match m {
        Some(rate) => println!(rt; "marginal rate {}", rate.0),
        None => println!(rt; "marginal rate none"),
    }
}
