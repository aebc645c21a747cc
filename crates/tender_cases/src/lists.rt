// Lists of admitted codes and of their limits.
use crate::messages::announcement;
use crate::steps;
use std::io;

// Document 01's tender for other codes or limits, and a call on what opening gives.
fn admitting(rt: &impl Print, name: &[u8], codes: &[u32], limits: &[u64]) -> io::Result<()> {
    let t = steps::open(rt, name, announcement(), codes, limits)?;
    steps::revoke(rt, b"revoking", t)?;
    Ok(())
}

// Refusal 7: no code, equal codes, a code of six digits; the code 00000 is one.
pub fn codes(rt: &impl Print) -> io::Result<()> {
    let none = [0u32; 0];
    let equal = [90001u32, 90002, 90002];
    let wide = [90001u32, 90002, 100000];
    let zero = [0u32, 90002, 99999];
    let limits = [0u64; 3];
    admitting(rt, b"no code", &none, &limits[0..0])?;
    admitting(rt, b"equal codes", &equal, &limits)?;
    admitting(rt, b"wide code", &wide, &limits)?;
    admitting(rt, b"code zero", &zero, &limits)
}

// Refusals 19 and 20: limits that are not as many as the codes, or of sixteen digits; 7 comes before both, and 19 before 20.
pub fn limits(rt: &impl Print) -> io::Result<()> {
    let codes = [90001u32, 90002, 90003];
    let equal = [90001u32, 90002, 90002];
    let limits = [40000u64, 0, 999999999999999, 0];
    let long = [0u64, 0, 1000000000000000, 0];
    admitting(rt, b"no limit", &codes, &limits[0..0])?;
    admitting(rt, b"too few limits", &codes, &limits[0..2])?;
    admitting(rt, b"too many limits", &codes, &limits)?;
    admitting(rt, b"limit too long", &codes, &long[0..3])?;
    admitting(rt, b"too many limits, one too long", &codes, &long)?;
    admitting(rt, b"equal codes, too few limits", &equal, &limits[0..2])?;
    admitting(rt, b"equal codes, limit too long", &equal, &long[0..3])?;
    admitting(rt, b"a limit for each code", &codes, &limits[0..3])
}
