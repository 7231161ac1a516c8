ghost use Rattle.std.specs.Prelude.{◌≡◌, ◌≤◌, List, [], ◌∷◌, ◌++◌, true, length, filter, IfOk, OnOk, OnErr, IfSome, IsErr};
ghost use Rattle.std.specs.Option.{option_copied};
ghost use Rattle.std.specs.declared.cmp.Ordering.TheVariants.{Less};
ghost use Rattle.subscript_keys.specs.Key.{IsKey, IsSub};
ghost use Rattle.plain_orders.specs.declared.entry.Entry.{Entry};
ghost use Rattle.plain_orders.specs.PairMap.{key_cmp, value_at};
ghost use Rattle.plain_orders.specs.Entries.{count, live, live_session, last_epoch};
ghost use Rattle.plain_orders.specs.Sessions.{app_in, live_sessions, place_of_epoch};
ghost use Rattle.plain_orders.specs.Fold.{fold, is_begun};
ghost use Rattle.plain_orders.specs.Ordered.{MayFollow, IsOrdered};
ghost use Rattle.plain_orders.specs.Answers.{entry_sum, data_on, IsNextOn};
ghost use Rattle.plain_orders.specs.Spans.{entry_spans};
ghost use Rattle.end_words.specs.Runs.{covers, TrueAt};
ghost use Rattle.block_bytes.specs.Blocks.{block_bytes, IsBlockRun};
ghost use Rattle.block_tree.specs.TreeWords.{end_of_keys, all_keys, FitsOneBlock};
ghost use Rattle.folded_store.specs.Limits.{EntryFits};
ghost use Rattle.folded_store.specs.Transactions.{is_of};
ghost use Rattle.session_books.specs.Places.{close_place};
ghost use Rattle.session_books.specs.Books.{owed_live};
ghost use Rattle.global_store.specs.Stores.{IsStoreOf};

use block_tree::BlockTree;
use folded_store::{FoldedStore, TransactionName};
use plain_orders::{Applied, Entry};
use session_books::{Owed, SessionBooks};
use std::alloc::{AllocError, Global};
use subscript_keys::{KeyBytes, Run, Sub, ValueBytes};

/// The store of a data server.
#[derive(Drop)]
pub struct GlobalStore {
    folded: FoldedStore<BlockTree>,
    books: SessionBooks,
    /// Whether `apply` answered an `Err`.
    spent: bool,
}

impl GlobalStore {
    /// Of no entry.
    pub fn new(alloc: Global) -> Result<GlobalStore, AllocError>
        ensures { IfOk result (λ store. IsStoreOf [] store) }
    {
        Ok(GlobalStore {
            folded: FoldedStore::over(alloc, BlockTree::new(alloc)?),
            books: SessionBooks::new(alloc),
            spent: false,
        })
    }

    /// Of the entries of an ordered list.
    pub fn of(alloc: Global, entries: &[Entry]) -> Result<GlobalStore, AllocError>
        requires { IsOrdered entries.now }
        ensures { IfOk result (λ store. IsStoreOf entries.now store) }
    {
        let mut store = GlobalStore::new(alloc)?;
        for entry in entries {
            store.apply(alloc, entry)?;
        }
        Ok(store)
    }

    /// Takes one entry more, which may follow. After an `Err` the store is spent, and a spent store answers `Err`.
    pub fn apply(&mut self, alloc: Global, entry: &Entry) -> Result<Applied, AllocError>
        requires { EntryFits entry.now }
        ensures next { OnOk result ((es : List Entry) → IsStoreOf es self.old → MayFollow es entry.now
            → IsStoreOf (es ++ entry.now ∷ []) self.new) }
        ensures spans { IfOk result (λ applied. (es : List Entry) → IsStoreOf es self.old
            → applied.spans ≡ entry_spans (fold es) entry.now) }
        ensures sum { IfOk result (λ applied. (es : List Entry) → IsStoreOf es self.old
            → applied.sum ≡ entry_sum (fold es).pairs entry.now) }
        ensures err { OnErr result (self.new.spent ≡ true) }
        ensures spent { self.old.spent ≡ true → IsErr result }
    {
        if self.spent {
            return Err(AllocError);
        }
        self.spent = true;
        let applied = self.folded.apply(alloc, entry)?;
        self.books.take(alloc, entry, applied.sum)?;
        self.spent = false;
        Ok(applied)
    }

    /// Whether it is spent.
    pub fn is_spent(&self) -> bool
        ensures { result ≡ self.now.spent }
    {
        self.spent
    }

    /// The value of the node with this key.
    pub fn get(&self, key: &KeyBytes) -> Option<&ValueBytes>
        ensures { (es : List Entry) → IsStoreOf es self.now
            → option_copied result ≡ value_at (fold es).pairs key.now }
    {
        self.folded.get(key)
    }

    /// What stands at and below the node with this key: 1 for a value and 10 for descendants, both, or 0.
    pub fn shape(&self, key: &KeyBytes) -> u8
        ensures { (es : List Entry) → IsStoreOf es self.now → result ≡ data_on es key.now }
    {
        self.folded.shape(key)
    }

    /// The next subscript below the parent: that of its first descendant, or of its first descendant after
    /// this subscript with all that is below it. None where there is no such descendant.
    pub fn next_sub(
        &self,
        alloc: Global,
        parent: &KeyBytes,
        sub: Option<&Sub>,
    ) -> Result<Option<Sub>, AllocError>
        requires parent { IsKey parent.now }
        requires sub { IfSome (option_copied sub) IsSub }
        ensures { IfOk result (λ found. (es : List Entry) → IsStoreOf es self.now
            → IsNextOn es parent.now (option_copied sub.entry) found) }
    {
        self.folded.next_sub(alloc, parent, sub)
    }

    /// How many nodes have a value.
    pub fn len(&self) -> usize
        ensures { (es : List Entry) → IsStoreOf es self.now → result ≡ length (fold es).pairs }
    {
        self.folded.len()
    }

    /// A run that holds the key and is true of the whole list. While all pairs fit one block, it holds all keys.
    pub fn run_for(&self, key: &KeyBytes) -> Result<Run, AllocError>
        requires { key_cmp key.now end_of_keys ≡ Less }
        ensures covers { IfOk result (λ run. covers key.now run ≡ true) }
        ensures holds { IfOk result (λ run. (es : List Entry) → IsStoreOf es self.now → TrueAt run es (length es)) }
        ensures block { IfOk result (λ run. IsBlockRun run) }
        ensures fits { IfOk result (λ run. length (block_bytes run) ≤ 8192) }
        ensures whole { IfOk result (λ run. (es : List Entry) → IsStoreOf es self.now → FitsOneBlock (fold es).pairs
            → run.span ≡ all_keys) }
    {
        self.folded.run_for(key)
    }

    /// How many entries there are.
    pub fn length(&self) -> u64
        ensures { (es : List Entry) → IsStoreOf es self.now → result ≡ length es }
    {
        self.books.length()
    }

    /// The number of the newest Epoch, or 0.
    pub fn last_epoch(&self) -> u32
        ensures { (es : List Entry) → IsStoreOf es self.now → result ≡ last_epoch es }
    {
        self.books.last_epoch()
    }

    /// How many entries stand before the first Epoch above this one.
    pub fn place_of_epoch(&self, epoch: u32) -> Option<u64>
        ensures { (es : List Entry) → IsStoreOf es self.now → result ≡ place_of_epoch epoch 0 es }
    {
        self.books.place_of_epoch(epoch)
    }

    /// The greatest running number of a session's items, or 0.
    pub fn count(&self, session: u64) -> u64
        ensures { (es : List Entry) → IsStoreOf es self.now → result ≡ count es session }
    {
        self.books.count(session)
    }

    /// Whether a session is opened and not closed after that.
    pub fn is_live(&self, session: u64) -> bool
        ensures { (es : List Entry) → IsStoreOf es self.now → result ≡ live es session }
    {
        self.books.is_live(session)
    }

    /// The application server that opened a session.
    pub fn app_of(&self, session: u64) -> Option<u8>
        ensures { (es : List Entry) → IsStoreOf es self.now → result ≡ app_in es session }
    {
        self.books.app_of(session)
    }

    /// The live session of an application server.
    pub fn live_session(&self, app: u8) -> Option<u64>
        ensures { (es : List Entry) → IsStoreOf es self.now → result ≡ live_session es app }
    {
        self.books.live_session(app)
    }

    /// The live sessions, in the order of their Opens.
    pub fn live_sessions(&self) -> &[u64]
        ensures { (es : List Entry) → IsStoreOf es self.now → result.now ≡ live_sessions es }
    {
        self.books.live_sessions()
    }

    /// Whether the transaction is open.
    pub fn is_begun(&self, name: TransactionName) -> bool
        ensures { (es : List Entry) → IsStoreOf es self.now
            → result ≡ is_begun name.session name.job name.txn (fold es).begun }
    {
        self.folded.is_begun(name)
    }

    /// How many transactions of the session are open.
    pub fn open_txns(&self, session: u64) -> usize
        ensures { (es : List Entry) → IsStoreOf es self.now
            → result ≡ length (filter (is_of session) (fold es).begun) }
    {
        self.folded.open_txns(session)
    }

    /// Where a session's Close stands, the first entry being at 1.
    pub fn closed_at(&self, session: u64) -> Option<u64>
        ensures { (es : List Entry) → IsStoreOf es self.now → result ≡ close_place es session }
    {
        self.books.closed_at(session)
    }

    /// What the item of a live session with this running number is owed, if it is one that is answered.
    pub fn owed(&self, session: u64, w: u64) -> Option<Owed>
        ensures { (es : List Entry) → IsStoreOf es self.now → result ≡ owed_live es session w }
    {
        self.books.owed(session, w)
    }
}
