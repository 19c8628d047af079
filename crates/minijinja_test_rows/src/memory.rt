//! Memory that is refused: each call answers so, or as with ample memory, and in no other way.
//!
//! A test takes all memory there is from the C library's `malloc`, and gives back a little more
//! each time. So a request is refused early in a call at first, then later and later, until none
//! is. Such tests fail where `malloc` never runs out, as under an address sanitizer.
use crate::rows::{decoded, parted};
use minijinja_syntax::error::{Error, ErrorKind};
use std::alloc::{AllocError, Global};
use std::test::Fail;

/// The bytes of a stock: more than the calls of any row need.
const STOCK: usize = 16_384;

/// How many stocks there are. Each is given back once, and an attempt takes three at most.
const STOCKS: usize = 1_500;

/// The bytes of the largest block that is looked for.
const MOST: usize = 1 << 40;

/// The bytes by which an attempt has more than the one before: those by which `malloc` counts.
pub const GRAIN: usize = 16;

/// Memory that is held, in blocks that nothing is written to.
#[derive(Drop)]
pub struct Ballast {
    alloc: Global,
    blocks: Vec<Vec<u8>>,
    stocks: Vec<Vec<u8>>,
    /// How much the calls of this attempt have. The first attempt has ample memory.
    room: Option<usize>,
    /// Whether the calls of some attempt had more than that.
    is_slack: bool,
}

impl Ballast {
    /// Stocks, and a small block between any two, so that they stay apart.
    pub fn new(alloc: Global) -> Result<Ballast, AllocError> {
        let mut ballast = Ballast {
            alloc,
            blocks: Vec::with_capacity(alloc, 200_000)?,
            stocks: Vec::with_capacity(alloc, STOCKS)?,
            room: None,
            is_slack: false,
        };
        for _ in 0..STOCKS {
            let stock = Vec::with_capacity(alloc, STOCK)?;
            ballast.stocks.push(stock)?;
            ballast.hold(1);
        }
        Ok(ballast)
    }

    /// Takes a block of this size, if there is one.
    fn hold(&mut self, size: usize) -> bool {
        match Vec::with_capacity(self.alloc, size) {
            Ok(block) => self.blocks.push(block).is_ok(),
            Err(_) => false,
        }
    }

    /// Takes all blocks that are free, none of them larger than this.
    fn fill(&mut self, most: usize) {
        let mut size = most;
        for _ in 0..30_000 {
            if size == 0 {
                return;
            }
            if !self.hold(size) {
                size = smaller(size);
            }
        }
    }

    /// Takes all memory there is.
    pub fn take_all(&mut self) {
        self.fill(MOST);
    }

    /// Takes all memory there is again, of which no block is larger than a stock.
    pub fn take_rest(&mut self) {
        self.fill(STOCK);
    }

    /// Gives a stock back, and takes all but `room` bytes of it. Returns whether it could be taken.
    pub fn leave(&mut self, room: usize) -> bool {
        self.give_back();
        self.hold(STOCK.saturating_sub(room))
    }

    /// From here on the calls have the room of this attempt alone.
    pub fn narrow(&mut self) {
        if let Some(room) = self.room {
            self.take_rest();
            if !self.leave(room) {
                self.is_slack = true;
            }
        }
    }

    /// Gives a stock back.
    pub fn give_back(&mut self) {
        drop(self.stocks.pop());
    }

    /// Begins an attempt whose calls have this room.
    fn begin(&mut self, room: usize) {
        self.room = Some(room);
        self.give_back();
    }
}

/// The next size to look for. Small blocks that were freed are kept by their size.
fn smaller(size: usize) -> usize {
    if size > 1_056 {
        size / 2
    } else {
        size.saturating_sub(GRAIN)
    }
}

/// Calls on a text.
pub trait Refusable {
    /// Prepares with ample memory, narrows the ballast, makes the calls, and appends their answers
    /// in words, for which there is room. Where memory is refused, it gives a stock back, and looks
    /// at what the calls left.
    fn attempt<'t>(
        alloc: Global,
        text: &'t str,
        ballast: &mut Ballast,
        words: &mut String,
    ) -> Result<(), Error<'t>>;
}

/// A text, and the answers of its calls in words.
#[derive(Clone, Copy)]
struct Row<'t> {
    text: &'t str,
    wanted: &'t str,
}

/// Fails at the first row, a line `TEXT => WORDS`, where an answer is neither these words nor that
/// memory is refused.
pub fn refused_at_each<C: Refusable>(alloc: Global, rows: &str) -> Result<(), Fail> {
    for row in rows.lines() {
        if !row.is_empty() {
            let (text, wanted) = parted(row, " => ");
            let text = decoded(alloc, text)?;
            let text = text.as_str();
            with_ballast::<C>(alloc, Row { text, wanted }, true)?;
        }
    }
    Ok(())
}

/// Fails at the first row, a line `TEXT => WORDS`, where the answer is not these words with no
/// memory left.
pub fn answered_without<C: Refusable>(alloc: Global, rows: &str) -> Result<(), Fail> {
    for row in rows.lines() {
        if !row.is_empty() {
            let (text, wanted) = parted(row, " => ");
            let text = decoded(alloc, text)?;
            let text = text.as_str();
            with_ballast::<C>(alloc, Row { text, wanted }, false)?;
        }
    }
    Ok(())
}

/// Fails where a row's answer with little memory is not as it has to be: as with ample memory, or
/// refused if that is allowed.
fn with_ballast<C: Refusable>(alloc: Global, row: Row<'_>, may_refuse: bool) -> Result<(), Fail> {
    let mut words = String::with_capacity(alloc, 4_096)?;
    let mut ballast = Ballast::new(alloc)?;
    fill_after_answer::<C>(alloc, row, &mut ballast, &mut words)?;
    if may_refuse {
        refused_until_answered::<C>(alloc, row, &mut ballast, &mut words)
    } else {
        answered_at_once::<C>(alloc, row, &mut ballast, &mut words)
    }
}

/// Takes all memory after an attempt with ample memory. That attempt also makes the stack as large
/// as it gets.
fn fill_after_answer<C: Refusable>(
    alloc: Global,
    row: Row<'_>,
    ballast: &mut Ballast,
    words: &mut String,
) -> Result<(), Fail> {
    if !is_answered::<C>(alloc, row, ballast, words)? {
        return Err(Fail::new(format_args!("no ample memory for {}", row.text)));
    }
    ballast.take_all();
    Ok(())
}

fn refused_until_answered<C: Refusable>(
    alloc: Global,
    row: Row<'_>,
    ballast: &mut Ballast,
    words: &mut String,
) -> Result<(), Fail> {
    for step in 0..450 {
        ballast.begin(step * GRAIN);
        if is_answered::<C>(alloc, row, ballast, words)? {
            if step == 0 {
                return Err(Fail::new(format_args!("none is refused of {}", row.text)));
            }
            return Ok(());
        }
        if ballast.is_slack {
            return Err(Fail::new("the calls had more room than was left"));
        }
        ballast.take_rest();
    }
    Err(Fail::new(format_args!("no room is enough for {}", row.text)))
}

fn answered_at_once<C: Refusable>(
    alloc: Global,
    row: Row<'_>,
    ballast: &mut Ballast,
    words: &mut String,
) -> Result<(), Fail> {
    ballast.begin(0);
    if !is_answered::<C>(alloc, row, ballast, words)? {
        return Err(Fail::new(format_args!("memory is refused for {}", row.text)));
    }
    if ballast.is_slack {
        return Err(Fail::new("the calls had more room than was left"));
    }
    Ok(())
}

/// Whether the answer is that of the row. Otherwise memory was refused.
fn is_answered<C: Refusable>(
    alloc: Global,
    row: Row<'_>,
    ballast: &mut Ballast,
    words: &mut String,
) -> Result<bool, Fail> {
    words.clear();
    let kind = match C::attempt(alloc, row.text, ballast, words) {
        Ok(()) => None,
        Err(error) if is_of_memory(error) => return Ok(false),
        Err(error) => Some(error.kind()),
    };
    ballast.give_back();
    if let Some(kind) = kind {
        write!(words, "{kind:?}")?;
    }
    if words.as_str() != row.wanted {
        return Err(Fail::new(format_args!("{words} is the answer to {}", row.text)));
    }
    Ok(true)
}

/// Whether memory is refused, which names no place.
pub fn is_of_memory(error: Error<'_>) -> bool {
    error.kind() == ErrorKind::OutOfMemory && error.name().is_none() && error.span().is_none()
}

/// Whether a later call is refused as this one was.
pub fn is_refused_so<T: Drop>(again: Result<T, Error<'_>>, error: Error<'_>) -> bool {
    match again {
        Ok(_) => false,
        Err(again) => again.kind() == error.kind() && again.span() == error.span(),
    }
}

/// The refusal, if what it left is as it should be.
pub fn refused<'t>(error: Error<'t>, stands: bool, words: &mut String) -> Result<(), Error<'t>> {
    if stands {
        return Err(error);
    }
    words.push_str("something else after a refusal")?;
    Ok(())
}
