// How the steps of a case are taken and shown, a line for each call.
use crate::step::{Answered, Step};
use crate::store::{Planted, Store};
use arena::{Arena, Refusal};
use std::io;
use std::io::Write;
use trial::row::{Plant, current_pointer};

// These write a part of a line each, and a line is of one call: the values alone have no text to be displayed as.
fn show_answer<W: Write>(out: &mut W, answer: Result<Option<usize>, Refusal>) -> io::Result<()> {
    match answer {
        Ok(Some(offset)) => write!(out, ": at {offset}"),
        Ok(None) => write!(out, ": done"),
        Err(r) => write!(out, ": refused {}", r.number()),
    }
}

// The whole record: its numbers, and the held chunks in the order taken. No limit has the number 0.
fn show_record<W: Write>(out: &mut W, a: &Arena) -> io::Result<()> {
    let h = a.head;
    write!(out, "; region {}, minimum {}", h.region, h.minimum)?;
    match (h.limited, h.limit) {
        (1, limit) => write!(out, ", limit {limit}")?,
        (_, 0) => write!(out, ", no limit")?,
        (_, limit) => write!(out, ", no limit BUT {limit}")?,
    }
    if h.count == 0 {
        write!(out, ", no chunk")?;
    }
    let chunks = a.starts.iter().zip(&a.sizes).zip(&a.pointers);
    for ((start, size), pointer) in chunks.take(h.count) {
        write!(out, ", {size} at {start} pointer {pointer}")?;
    }
    out.write_all(b"\n")
}

// A zero byte, which no text of this program has, is shown as 0.
fn show_bytes<W: Write>(out: &mut W, s: &Store, from: usize, to: usize) -> io::Result<()> {
    out.write_all(b": ")?;
    for b in s.bytes.iter().take(to).skip(from) {
        let shown = if *b == 0 { b'0' } else { *b };
        out.write_all(&[shown])?;
    }
    out.write_all(b"\n")
}

// The end of a line: how many chunks are held, and the current one's pointer. A refused call must leave everything as it was.
fn show_after<W: Write>(
    out: &mut W,
    is_served: bool,
    before: &Store,
    after: &Store,
) -> io::Result<()> {
    if is_served {
        write!(out, "; chunks {}", after.arena.head.count)?;
        if let Some(pointer) = current_pointer(&after.arena) {
            write!(out, ", pointer {pointer}")?;
        }
        return out.write_all(b"\n");
    }
    if before.is_same(after) {
        writeln!(out, ", unchanged")
    } else {
        writeln!(out, ", CHANGED")
    }
}

impl Store {
    // Whether a lend leaves every byte as it is.
    fn is_only_lent(&self, offset: usize, size: usize, align: usize) -> bool {
        let mut after = *self;
        let _ = calls::lend::lend(self.arena, after.region(), offset, size, align);
        if let Some(Planted::BeforeTheWrite) = self.planted {
            after = after.put(Plant::Byte(offset));
        }
        after.bytes == self.bytes
    }

    // Of a served call that is lent bytes: whether those that it may not write are as they were.
    fn are_others_same(&self, step: Step, after: &Store, from: usize, size: usize) -> bool {
        if let Step::Lend(offset, size, align) = step {
            if !self.is_only_lent(offset, size, align) {
                return false;
            }
        }
        self.is_same_outside(after, from, from.wrapping_add(size))
    }

    fn show_answered<W: Write>(
        &self,
        out: &mut W,
        step: Step,
        answered: Answered,
        after: &Store,
    ) -> io::Result<()> {
        if let Some(token) = answered.token {
            write!(out, " gives token {} {}", token.count, token.pointer)?;
        }
        show_answer(out, answered.answer)?;
        if let Some(count) = answered.lent {
            write!(out, ", bytes lent {count}")?;
        }
        if let Some((from, size)) = answered.written {
            if self.are_others_same(step, after, from, size) {
                write!(out, ", other bytes unchanged")?;
            } else {
                write!(out, ", OTHER BYTES CHANGED")?;
            }
        }
        match step {
            Step::Create(..) => show_record(out, &after.arena),
            _ => show_after(out, answered.answer.is_ok(), self, after),
        }
    }

    // Prints what is asked, what was answered and what the arena is then, and gives the store after it.
    fn take<W: Write>(&self, out: &mut W, step: Step) -> io::Result<Store> {
        write!(out, "{step}")?;
        let mut after = *self;
        if let Some(answered) = step.run(&mut after) {
            after = after.after_call();
            self.show_answered(out, step, answered, &after)?;
            return Ok(after);
        }
        match step {
            Step::Record => show_record(out, &self.arena)?,
            Step::Bytes(from, to) => show_bytes(out, self, from, to)?,
            _ => {}
        }
        Ok(after)
    }

    fn each<W: Write>(&self, out: &mut W, steps: &[Step]) -> io::Result<()> {
        for step in steps {
            self.take(out, *step)?;
        }
        Ok(())
    }

    fn in_turn<W: Write>(&self, out: &mut W, steps: &[Step]) -> io::Result<Store> {
        let mut store = *self;
        for step in steps {
            store = store.take(out, *step)?;
        }
        Ok(store)
    }

    fn refuse<W: Write>(&self, out: &mut W, group: &[Step]) -> io::Result<()> {
        if let Some(first) = group.first() {
            let first = *first;
            self.in_turn(out, &[Step::Lent(16383), Step::Overcounted, first])?;
            self.in_turn(out, &[Step::Lent(16383), Step::Littered, first])?;
            if first.is_lent() {
                self.in_turn(out, &[Step::Lent(16383), first])?;
            }
        }
        self.each(out, group)
    }
}

// The stores that cases begin from.
#[derive(Clone, Copy)]
pub enum Kept {
    New,
    Block,
    Other,
}

#[derive(Clone, Copy)]
pub enum Case {
    // The steps are taken one after the other, from a kept store on.
    InTurn(Kept, &'static [Step]),
    // So are these, and the store after the last is kept.
    Keep(Kept, &'static [Step], Kept),
    // Each is taken from the same store.
    Each(Kept, &'static [Step]),
    // The first call of a group is made on records that are unsound in two ways, lent a byte less than the region; then, where it is lent any, on the sound record,
    // lent as many; then each of the group on the record with all its bytes.
    Refused(Kept, &'static [Step]),
}

#[derive(Clone, Copy)]
pub struct Stores {
    pub new: Store,
    pub block: Store,
    pub other: Store,
}

impl Stores {
    pub fn blank() -> Stores {
        Stores {
            new: Store::blank(),
            block: Store::blank(),
            other: Store::blank(),
        }
    }

    fn at(&mut self, kept: Kept) -> &mut Store {
        match kept {
            Kept::New => &mut self.new,
            Kept::Block => &mut self.block,
            Kept::Other => &mut self.other,
        }
    }

    pub fn run<W: Write>(&mut self, out: &mut W, cases: &[Case]) -> io::Result<()> {
        for case in cases {
            match *case {
                Case::InTurn(from, steps) => {
                    self.at(from).in_turn(out, steps)?;
                }
                Case::Keep(from, steps, to) => {
                    let last = self.at(from).in_turn(out, steps)?;
                    *self.at(to) = last;
                }
                Case::Each(from, steps) => self.at(from).each(out, steps)?,
                Case::Refused(from, group) => self.at(from).refuse(out, group)?,
            }
        }
        Ok(())
    }
}
