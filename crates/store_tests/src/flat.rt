use crate::nodes::sub_of;
use plain_orders::{Entry, Op, Sum};
use std::alloc::{AllocError, Global};
use std::collections::BTreeMap;
use std::ops::Bound;
use std::test::Fail;
use subscript_keys::{KeyBytes, NUMBER_LIMIT, Pair, Run, Span, Sub, ValueBytes};

/// What an update of a transaction did.
#[derive(Drop)]
enum Done {
    Set {
        key: KeyBytes,
        old: Option<ValueBytes>,
    },
    Kill {
        key: KeyBytes,
        removed: Vec<Pair>,
    },
}

/// An open transaction, the oldest update first.
#[derive(Drop)]
struct Open {
    session: u64,
    job: u16,
    txn: u32,
    done: Vec<Done>,
}

/// A map and logs, to be compared with the stores, with which it shares no code.
#[derive(Drop)]
pub struct Flat {
    pub pairs: BTreeMap<KeyBytes, ValueBytes>,
    /// The oldest first.
    open: Vec<Open>,
}

/// The bytes with one more behind them.
fn with_byte(alloc: Global, key: &KeyBytes, byte: u8) -> Result<KeyBytes, AllocError> {
    let mut bytes = Vec::from_slice(alloc, key.as_slice())?;
    bytes.push(byte)?;
    Ok(KeyBytes::from_vec(bytes))
}

fn span_from(alloc: Global, key: &KeyBytes, last: u8) -> Result<Span, AllocError> {
    Ok(Span {
        lo: key.clone()?,
        hi: with_byte(alloc, key, last)?,
    })
}

impl Done {
    fn span(&self, alloc: Global) -> Result<Span, AllocError> {
        match self {
            Done::Set { key, .. } => span_from(alloc, key, 0),
            Done::Kill { key, .. } => span_from(alloc, key, 0xFF),
        }
    }
}

/// The number that a text writes, if it is a whole one of at most 18 digits.
fn number_of(text: &[u8]) -> Option<i64> {
    let (negative, digits) = match text.split_first() {
        Some((45, digits)) => (true, digits),
        _ => (false, text),
    };
    let plain = match digits.split_first() {
        None => false,
        Some((48, rest)) => rest.is_empty() && !negative,
        Some(_) => true,
    };
    if !plain || digits.len() > 18 {
        return None;
    }
    let mut number = 0i64;
    for digit in digits {
        if *digit < 48 || *digit > 57 {
            return None;
        }
        number = number.checked_mul(10)?.checked_add(i64::from(*digit - 48))?;
    }
    if negative {
        return number.checked_neg();
    }
    Some(number)
}

impl Flat {
    pub fn new(alloc: Global) -> Flat {
        Flat {
            pairs: BTreeMap::new(alloc),
            open: Vec::new(alloc),
        }
    }

    /// The next subscript below the parent, behind this one, or the first.
    pub fn next_sub(
        &self,
        alloc: Global,
        parent: &KeyBytes,
        behind: &[u8],
    ) -> Result<Option<Sub>, AllocError> {
        for (key, _value) in self
            .pairs
            .range((Bound::Excluded(parent), Bound::Unbounded))
        {
            let Some(rest) = key.as_slice().strip_prefix(parent.as_slice()) else {
                return Ok(None);
            };
            if behind.is_empty() || (rest > behind && !rest.starts_with(behind)) {
                return sub_of(alloc, rest);
            }
        }
        Ok(None)
    }

    /// What stands at and below a node: 1 for a value and 10 for descendants.
    pub fn shape(&self, node: &KeyBytes) -> u8 {
        let mut has_value = false;
        for (key, _value) in self.pairs.range((Bound::Included(node), Bound::Unbounded)) {
            if key == node {
                has_value = true;
            } else if key.as_slice().starts_with(node.as_slice()) {
                return if has_value { 11 } else { 10 };
            } else {
                break;
            }
        }
        if has_value { 1 } else { 0 }
    }

    /// Whether a run has just the pairs of its span.
    pub fn has_run(&self, run: &Run) -> bool {
        let mut pairs = run.pairs.as_slice().iter();
        for (key, value) in self
            .pairs
            .range((Bound::Included(&run.span.lo), Bound::Unbounded))
        {
            if *key >= run.span.hi {
                break;
            }
            match pairs.next() {
                Some(pair) if pair.key == *key && pair.value == *value => {}
                _ => return false,
            }
        }
        pairs.next().is_none()
    }

    /// Takes an entry, and answers the spans that it changes, and its sum.
    pub fn apply(&mut self, alloc: Global, entry: &Entry) -> Result<(Vec<Span>, Sum), Fail> {
        let mut spans = Vec::new(alloc);
        match entry {
            Entry::Epoch { .. } | Entry::Opened { .. } => {}
            Entry::Closed { session } => self.close(alloc, *session, &mut spans)?,
            Entry::Update {
                session,
                job,
                txn,
                op,
                ..
            } => {
                let sum = self.update(alloc, (*session, *job, *txn), op, &mut spans)?;
                return Ok((spans, sum));
            }
            Entry::Commit {
                session,
                job,
                txn,
                ..
            } => {
                self.take(*session, Some((*job, *txn)));
            }
            Entry::Rollback {
                session,
                job,
                txn,
                ..
            } => {
                let open = self.take(*session, Some((*job, *txn)));
                self.undo(alloc, open, &mut spans)?;
            }
        }
        Ok((spans, Sum::Nothing))
    }

    /// Takes away the open transaction of this name, or without a name the latest begun one of the session.
    fn take(&mut self, session: u64, name: Option<(u16, u32)>) -> Option<Open> {
        let at = self.open.iter().rposition(|open| match name {
            None => open.session == session,
            Some((job, txn)) => open.session == session && open.job == job && open.txn == txn,
        })?;
        Some(self.open.remove(at))
    }

    fn close(&mut self, alloc: Global, session: u64, spans: &mut Vec<Span>) -> Result<(), Fail> {
        for _ in 0..self.open.len() {
            let open = self.take(session, None);
            self.undo(alloc, open, spans)?;
        }
        Ok(())
    }

    fn undo(
        &mut self,
        alloc: Global,
        open: Option<Open>,
        spans: &mut Vec<Span>,
    ) -> Result<(), Fail> {
        let Some(Open { done, .. }) = open else {
            return Ok(());
        };
        let mut done = done;
        for _ in 0..done.len() {
            if let Some(one) = done.pop() {
                spans.push(one.span(alloc)?)?;
                self.undo_one(one)?;
            }
        }
        Ok(())
    }

    fn undo_one(&mut self, one: Done) -> Result<(), Fail> {
        match one {
            Done::Set { key, old } => self.put_value_back(key, old),
            Done::Kill { removed, .. } => self.put_pairs_back(removed),
        }
    }

    fn put_value_back(&mut self, key: KeyBytes, old: Option<ValueBytes>) -> Result<(), Fail> {
        match old {
            None => {
                self.pairs.remove(&key);
            }
            Some(value) => {
                self.pairs.insert(key, value)?;
            }
        }
        Ok(())
    }

    fn put_pairs_back(&mut self, removed: Vec<Pair>) -> Result<(), Fail> {
        for pair in removed {
            self.pairs.insert(pair.key, pair.value)?;
        }
        Ok(())
    }

    fn update(
        &mut self,
        alloc: Global,
        name: (u64, u16, u32),
        op: &Op,
        spans: &mut Vec<Span>,
    ) -> Result<Sum, Fail> {
        match op {
            Op::Set { key, value } => {
                spans.push(span_from(alloc, key, 0)?)?;
                let old = self.pairs.insert(key.clone()?, value.clone()?)?;
                let done = Done::Set {
                    key: key.clone()?,
                    old,
                };
                self.note(alloc, name, done)?;
                Ok(Sum::Nothing)
            }
            Op::Kill { key } => {
                spans.push(span_from(alloc, key, 0xFF)?)?;
                let removed = self.kill(alloc, key)?;
                let done = Done::Kill {
                    key: key.clone()?,
                    removed,
                };
                self.note(alloc, name, done)?;
                Ok(Sum::Nothing)
            }
            Op::Add { key, amount } => {
                spans.push(span_from(alloc, key, 0)?)?;
                self.add(alloc, key, *amount)
            }
        }
    }

    fn note(&mut self, alloc: Global, name: (u64, u16, u32), one: Done) -> Result<(), Fail> {
        let (session, job, txn) = name;
        if txn == 0 {
            return Ok(());
        }
        for open in self.open.iter_mut() {
            if open.session == session && open.job == job && open.txn == txn {
                open.done.push(one)?;
                return Ok(());
            }
        }
        let mut done = Vec::new(alloc);
        done.push(one)?;
        self.open.push(Open {
            session,
            job,
            txn,
            done,
        })?;
        Ok(())
    }

    fn kill(&mut self, alloc: Global, node: &KeyBytes) -> Result<Vec<Pair>, Fail> {
        let mut keys = Vec::new(alloc);
        for (key, _value) in self.pairs.range((Bound::Included(node), Bound::Unbounded)) {
            if key.as_slice().starts_with(node.as_slice()) {
                keys.push(key.clone()?)?;
            }
        }
        let mut removed = Vec::new(alloc);
        for key in keys {
            if let Some(value) = self.pairs.remove(&key) {
                removed.push(Pair { key, value })?;
            }
        }
        Ok(removed)
    }

    fn add(&mut self, alloc: Global, key: &KeyBytes, amount: i64) -> Result<Sum, Fail> {
        let number = match self.pairs.get(key) {
            None => Some(0),
            Some(value) => number_of(value.as_slice()),
        };
        let Some(number) = number else {
            return Ok(Sum::NotWhole);
        };
        match number.checked_add(amount) {
            Some(sum) if sum.unsigned_abs() < NUMBER_LIMIT => {
                let text = format!(in alloc; "{sum}")?;
                let value = ValueBytes::from_vec(text.into_bytes());
                self.pairs.insert(key.clone()?, value)?;
                Ok(Sum::Whole(sum))
            }
            _ => Ok(Sum::Range),
        }
    }
}
