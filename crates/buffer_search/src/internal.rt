// Each function asks for words that hold a tender, or for codes that rise.
ghost use Rattle.std.specs.Prelude.{◌≡◌, true, ◌≤◌, ◌<◌, length};
ghost use Rattle.rules.specs.Opening.{rising};
ghost use Rattle.book.specs.Viewed.{viewed, find_from, index_of, taken_at};
ghost use Rattle.buffer.specs.Words.{tender_words, book_in, is_tender};
ghost use Rattle.buffer_search.specs.Search.{find_in, is_below, AllBelow, AsManyBelow};

// Whether a code stands at an index and is below this one.
fn is_below(codes: &[u64], at: usize, code: u64) -> bool
    ensures { result ≡ is_below codes.now at code }
{
    at < codes.len() && codes[at] < code
}

// How many of rising codes are below this one, counted from an index before which all are. The index is
// the answer, so a `while` is plainer here, and in the next function, than a chain.
fn below_from(codes: &[u64], from: usize, code: u64) -> usize
    requires { (rising codes.now ≡ true) × AllBelow codes.now from code }
    ensures { AsManyBelow codes.now result code }
{
    let mut at = from;
    while is_below(codes, at, code) {
        at += 1;
    }
    at
}

// How many of rising codes are below this one: by eights, and then one by one. A search by halving
// takes fewer steps, and was slower where codes came in any order.
fn below(codes: &[u64], code: u64) -> usize
    requires { rising codes.now ≡ true }
    ensures { AsManyBelow codes.now result code }
{
    let mut at = 0;
    while is_below(codes, at + 7, code) {
        at += 8;
    }
    below_from(codes, at, code)
}

// Where a code stands among rising ones.
fn search(codes: &[u64], code: u64) -> Option<usize>
    requires { rising codes.now ≡ true }
    ensures { result ≡ find_in codes.now code 0 }
{
    let at = below(codes, code);
    if at < codes.len() && codes[at] == code {
        Some(at)
    } else {
        None
    }
}

// Where a code stands in the book.
pub fn find(words: &[u64], code: u64) -> Option<usize>
    requires { is_tender words.now ≡ true }
    ensures { result ≡ find_from (viewed (book_in words.now)) code 0 }
{
    let n = words[2] as usize;
    search(&words[24..24 + n], code)
}

// Whether the code found holds nothing, or a time before this one.
pub fn takes(words: &[u64], found: Option<usize>, time: u64) -> bool
    requires { (tender_words ≤ length words.now) × (index_of found < 64) }
    ensures { result ≡ taken_at (book_in words.now) found time }
{
    match found {
        Some(at) => (words[152 + at] == 0) | (words[88 + at] < time),
        None => false,
    }
}
