// Dates, times and their order.
use std::io;

fn date(rt: &impl Print, n: u64) -> io::Result<()> {
    printing::text(rt, b"date")?;
    printing::number(rt, n)?;
    printing::yes(rt, calendar::valid_date(n))?;
    printing::end(rt)
}

// Leap days, the ends of months, the years' bounds, and numbers of more digits than a date has.
pub fn dates(rt: &impl Print) -> io::Result<()> {
    date(rt, 29022012)?;
    date(rt, 29022011)?;
    date(rt, 29021900)?;
    date(rt, 29022000)?;
    date(rt, 29022100)?;
    date(rt, 28021900)?;
    date(rt, 1011900)?;
    date(rt, 31121899)?;
    date(rt, 31129999)?;
    date(rt, 12012)?;
    date(rt, 32012012)?;
    date(rt, 31042012)?;
    date(rt, 30042012)?;
    date(rt, 31122012)?;
    date(rt, 10132012)?;
    date(rt, 10002012)?;
    date(rt, 112032012)
}

fn hour(rt: &impl Print, n: u64) -> io::Result<()> {
    printing::text(rt, b"time")?;
    printing::number(rt, n)?;
    printing::yes(rt, calendar::valid_time(n))?;
    printing::end(rt)
}

pub fn hours(rt: &impl Print) -> io::Result<()> {
    hour(rt, 0)?;
    hour(rt, 235959)?;
    hour(rt, 240000)?;
    hour(rt, 235960)?;
    hour(rt, 106000)?;
    hour(rt, 105960)?;
    hour(rt, 1000000)
}

fn later(rt: &impl Print, date: u64, time: u64, day: u64, second: u64) -> io::Result<()> {
    printing::number(rt, date)?;
    printing::number(rt, time)?;
    printing::yes(rt, calendar::moment_later(date, time, day, second))?;
    printing::end(rt)
}

// Moments against 110000 on 12 March 2012.
pub fn order(rt: &impl Print) -> io::Result<()> {
    later(rt, 12032012, 110000, 12032012, 110000)?;
    later(rt, 12032012, 110001, 12032012, 110000)?;
    later(rt, 13022012, 235959, 12032012, 110000)?;
    later(rt, 11032013, 0, 12032012, 110000)?;
    later(rt, 31122011, 235959, 12032012, 110000)?;
    later(rt, 13032012, 0, 12032012, 110000)
}
