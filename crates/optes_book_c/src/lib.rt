// The calls of `optes_book` under their names in C, in an archive for a host. That crate is a plain library, since others cite what it promises; each
// call here promises the same and is that call.
#![tactic(auto)]

ghost use Rattle.rules.specs.Opening.{admitting};
ghost use Rattle.rules.specs.Calls.{close, revoke};
ghost use Rattle.buffer.specs.Words.{tender_in};
ghost use Rattle.optes_book.specs.Interface.{Opens, Receives, Changes, Allots, Previews, TellsState, TellsTerms, TellsCodes, TellsLimits, TellsHeld};

// Opens a tender in the words.
#[unsafe(no_mangle)]
pub extern "C" fn optes_words_open(
    words: &mut [u64],
    m: &[u8],
    codes: &[u32],
    limits: &[u64],
) -> u64
    ensures { Opens words.old m.now (admitting codes.now limits.now) result words.new }
{
    optes_book::optes_words_open(words, m, codes, limits)
}

// Receives a message and writes the reply to it; tells the length of the reply and the errors.
#[unsafe(no_mangle)]
pub extern "C" fn optes_words_receive(
    words: &mut [u64],
    m: &[u8],
    date: u64,
    time: u64,
    space: &mut [u8],
    told: &mut [u64],
) -> u64
    ensures { Receives words.old m.now date time space.old told.old result words.new space.new told.new }
{
    optes_book::optes_words_receive(words, m, date, time, space, told)
}

// Closes the tender.
#[unsafe(no_mangle)]
pub extern "C" fn optes_words_close(words: &mut [u64], date: u64, time: u64) -> u64
    ensures { Changes words.old (close (tender_in words.old) date time) 1 result words.new }
{
    optes_book::optes_words_close(words, date, time)
}

// Allots; tells the awards of 640 places and the marginal rate.
#[unsafe(no_mangle)]
pub extern "C" fn optes_words_allot(words: &mut [u64], awards: &mut [u64], told: &mut [u64]) -> u64
    ensures { Allots words.old awards.old told.old result words.new awards.new told.new }
{
    optes_book::optes_words_allot(words, awards, told)
}

// Previews; tells the same as allotting.
#[unsafe(no_mangle)]
pub extern "C" fn optes_words_preview(words: &[u64], awards: &mut [u64], told: &mut [u64]) -> u64
    ensures { Previews words.now awards.old told.old result awards.new told.new }
{
    optes_book::optes_words_preview(words, awards, told)
}

// Revokes the tender.
#[unsafe(no_mangle)]
pub extern "C" fn optes_words_revoke(words: &mut [u64]) -> u64
    ensures { Changes words.old (revoke (tender_in words.old)) 3 result words.new }
{
    optes_book::optes_words_revoke(words)
}

// Where the tender stands.
#[unsafe(no_mangle)]
pub extern "C" fn optes_words_state(words: &[u64]) -> u64
    ensures { TellsState words.now result }
{
    optes_book::optes_words_state(words)
}

// What was announced.
#[unsafe(no_mangle)]
pub extern "C" fn optes_words_terms(words: &[u64], told: &mut [u64]) -> u64
    ensures { TellsTerms words.now told.old result told.new }
{
    optes_book::optes_words_terms(words, told)
}

// Who is admitted.
#[unsafe(no_mangle)]
pub extern "C" fn optes_words_codes(words: &[u64], told: &mut [u64]) -> u64
    ensures { TellsCodes words.now told.old result told.new }
{
    optes_book::optes_words_codes(words, told)
}

// Up to which limits they are admitted.
#[unsafe(no_mangle)]
pub extern "C" fn optes_words_limits(words: &[u64], told: &mut [u64]) -> u64
    ensures { TellsLimits words.now told.old result told.new }
{
    optes_book::optes_words_limits(words, told)
}

// What is held for a code.
#[unsafe(no_mangle)]
pub extern "C" fn optes_words_held(words: &[u64], code: u64, told: &mut [u64]) -> u64
    ensures { TellsHeld words.now code told.old result told.new }
{
    optes_book::optes_words_held(words, code, told)
}
