//! Dataspaces over a pool of pages and the books of accounts.
ghost use Rattle.std.specs.Prelude.{◌≡◌, ◌≢◌, ◌+◌, ◌*◌, ◌/◌, ◌%◌, ◌^◌, ◌<◌, ◌≤◌, ◌++◌, length, if◌then◌else◌, Some, None, IsSome, IfOk, IfErr, IfSome, OnOk, OnErr, slice_range};
ghost use Rattle.std.specs.Result.{result_err};
ghost use Rattle.std.specs.FinMap.{get, len};
ghost use Rattle.trade_base.specs.Page.{is_valid_size, page_of};
ghost use Rattle.trade_base.specs.Word.{word_of, word_bytes};
ghost use Rattle.trade_base.specs.declared.refusal.Refusal.TheVariants.{OutOfCaps};
ghost use Rattle.own_model.specs.NatMap.{total};
ghost use Rattle.own_model.specs.Account.{alloc_refusal, shortage, charged, credited, WithinLimits};
ghost use Rattle.dataspace_core.specs.Store.{fresh_store, accounts_in, account_in, root_in, room_in, places_in, IsOpenIn};
ghost use Rattle.dataspace_core.specs.Store.{with_account_in, with_child_in, with_moved_in, without_account_in};
ghost use Rattle.dataspace_core.specs.Store.{ram_limits_in, caps_limits_in, parents_in, parent_in};
ghost use Rattle.dataspace_core.specs.Store.{IsChildIn, AreSiblingsIn, IsLeafIn, AreRelatedIn};
ghost use Rattle.dataspace_core.specs.Store.{Exists, space_at, with_space, without_space, with_bytes_at};
ghost use Rattle.dataspace_core.specs.Store.{part, part_with_space, part_without_space, part_with_bytes, charged_part};
ghost use Rattle.dataspace_core.specs.Store.{credited_part, PartBecomes, OpensPart, RaisesPart, ShiftsPart, ClosesPart};

use crate::dataspace::{Dataspace, size_of, space_under};
use crate::page_runs::{
    RunPlace, close_gap, copy_piece, give_run, load_run, no_pages, read_run, run_page, store_run,
    store_run_words, take_run, write_run,
};
use crate::spaces::Spaces;
use page_pool::{PageNo, Pool};
use quota_core::Books;
use std::alloc::Global;
use std::marker::Model;
use trade_base::{AccountId, Caps, DsId, NoMemory, PAGE, Ram, Refusal, page_round};

/// Pages in dataspaces, and the accounts that pay for them. Contracts see the books, and the payer and the bytes of each
/// dataspace by its key.
///
/// The limits of all accounts add up to the machine. So an account that covers an allocation also finds the pages and the
/// place for it.
#[derive(Drop)]
pub struct Memory {
    pool: Pool,
    books: Books,
    spaces: Spaces,
    /// The pages of all dataspaces, those of each dataspace contiguous.
    table: Vec<PageNo>,
}

impl Model for Memory {
    ghost use Rattle.std.specs.Prelude.{vec_capacity};
    ghost use Rattle.dataspace_core.specs.Store.{Store, coded_store};
    ghost use Rattle.dataspace_core.specs.Layout.{store_of};
    ghost use Rattle.dataspace_core.specs.Paid.{IsSound};

    ghost Value = { Store };

    ghost coded = { coded_store };

    ghost view = { λ m. store_of m.books m.pool m.table.items m.spaces };

    ghost invariant = { λ m. IsSound m.books m.pool m.table.items (vec_capacity m.table) m.spaces };
}

impl Memory {
    /// Creates a memory of `pages` pages with one account, the root, which has all RAM and all capabilities. It has
    /// places for at least `accounts` accounts in all. No later call allocates host memory.
    ///
    /// Fails with `NoMemory` if the host has too little memory.
    pub fn boot(
        alloc: Global,
        pages: usize,
        caps: Caps,
        accounts: usize,
    ) -> Result<Memory, NoMemory>
        requires pages { pages ≤ 4096 }
        requires some { 1 ≤ accounts }
        requires few { accounts ≤ 4096 }
        ensures fresh { IfOk result (λ memory.
            memory ≡ fresh_store (root_in memory) pages caps.0 (room_in memory + 1)
            (places_in memory)) }
        ensures places { IfOk result (λ memory. accounts ≤ room_in memory + 1) }
    {
        let pool = Pool::boot(alloc, pages)?;
        let books = Books::boot(alloc, Ram(pages as u64 * PAGE), caps, accounts)?;
        // Each dataspace needs at least one page and one capability.
        let spaces = Spaces::boot(alloc, pages.min(caps.0 as usize))?;
        let table = no_pages(alloc, pages)?;
        Ok(Memory {
            pool,
            books,
            spaces,
            table,
        })
    }

    /// Creates a zeroed dataspace of `bytes` bytes, rounded up to whole pages, and returns its key. The account is
    /// charged for these pages and one capability.
    ///
    /// Refuses with `InvalidSize` if `bytes` is 0 or exceeds 64 bits in whole pages. Then refuses with `OutOfRam` if the
    /// account has less unused RAM, then with `OutOfCaps` if it has no unused capability. Nothing else refuses it.
    pub fn alloc(&mut self, account: AccountId, bytes: u64) -> Result<DsId, Refusal>
        requires { IsOpenIn self.old account.0 }
        ensures refusal { result_err result
            ≡ alloc_refusal bytes (account_in self.old account.0) }
        ensures ok { IfOk result (λ ds. self.new ≡ with_space self.old ds.0 account.0 bytes) }
        ensures fresh { IfOk result (λ ds. get self.old.spaces ds.0 ≡ None) }
        ensures part { IfOk result (λ ds.
            PartBecomes account.0
            (part_with_space (part account.0 self.old) ds.0 bytes) self.old self.new) }
        ensures err { OnErr result (self.new ≡ self.old) }
        ensures paid { IfOk result (λ _.
            len (part account.0 self.new).spaces ≤ (account_in self.new account.0).caps_used) }
        ensures key { IfOk result (λ ds. ds.0 + 1 < 2 ^ 64) }
        ensures within { IfOk result (λ _.
            total (λ space. length space.bytes) self.new.spaces ≤ ram_limits_in self.new) }
    {
        let size = valid_size(bytes).ok_or(Refusal::InvalidSize)?;
        self.books.charge(account, Ram(size), Caps(1))?;
        let run = take_run(&mut self.pool, &mut self.table, (size / PAGE) as usize);
        // Keys are below the capacity, so each key plus one is a number.
        let _capacity = self.spaces.capacity();
        let key = self.spaces.insert_reserved(Dataspace {
            payer: account,
            run,
        });
        Ok(DsId(key))
    }

    /// Frees a dataspace and credits its payer with its bytes and one capability.
    pub fn free(&mut self, ds: DsId)
        requires { Exists self.old ds.0 }
        ensures freed { self.new ≡ without_space self.old ds.0 }
        ensures part { let payer = (space_at self.old ds.0).payer in
            PartBecomes payer (part_without_space (part payer self.old) ds.0) self.old self.new }
    {
        let space = self.spaces.remove(ds.0);
        give_run(&mut self.pool, &self.table, space.run);
        close_gap(&mut self.table, space.run);
        self.spaces.move_down(space.run, self.table.len());
        self.books.credit(space.payer, Ram(size_of(space)), Caps(1));
    }

    /// Returns the account that pays for a dataspace.
    pub fn payer(&self, ds: DsId) -> AccountId
        requires { Exists self.now ds.0 }
        ensures { result.0 ≡ (space_at self.now ds.0).payer }
    {
        space_under(&self.spaces, ds).payer
    }

    /// Returns the size of a dataspace, in bytes.
    pub fn size(&self, ds: DsId) -> u64
        requires { Exists self.now ds.0 }
        ensures { result ≡ length (space_at self.now ds.0).bytes }
    {
        size_of(space_under(&self.spaces, ds))
    }

    /// Returns the number of pages of a dataspace, at most that of the machine.
    pub fn pages(&self, ds: DsId) -> u64
        requires { Exists self.now ds.0 }
        ensures pages { result ≡ length (space_at self.now ds.0).bytes / 4096 }
        ensures few { result * 4096 ≤ ram_limits_in self.now }
    {
        size_of(space_under(&self.spaces, ds)) / PAGE
    }

    /// Fills `buffer` with the bytes of a dataspace from `offset` on.
    pub fn read(&self, ds: DsId, offset: u64, buffer: &mut [u8])
        requires exists { Exists self.now ds.0 }
        requires range { offset + length buffer.old ≤ length (space_at self.now ds.0).bytes }
        ensures { let end = offset + length buffer.old in
            buffer.new ≡ slice_range (space_at self.now ds.0).bytes offset end }
    {
        let run = space_under(&self.spaces, ds).run;
        read_run(&self.pool, &self.table, run, offset as usize, buffer);
    }

    /// Writes `bytes` to a dataspace from `offset` on. Nothing else changes.
    pub fn write(&mut self, ds: DsId, offset: u64, bytes: &[u8])
        requires exists { Exists self.old ds.0 }
        requires range { offset + length bytes.now ≤ length (space_at self.old ds.0).bytes }
        ensures written { self.new ≡ with_bytes_at self.old ds.0 offset bytes.now }
        ensures part { let payer = (space_at self.old ds.0).payer in
            let after = part_with_bytes (part payer self.old) ds.0 offset bytes.now in
            PartBecomes payer after self.old self.new }
    {
        let run = space_under(&self.spaces, ds).run;
        write_run(&mut self.pool, &self.table, run, offset as usize, bytes);
    }

    /// Copies `count` bytes that lie in one page of a dataspace into one page of another dataspace. Nothing else changes.
    pub(crate) fn copy_piece(
        &mut self,
        from: DsId,
        from_offset: u64,
        to: DsId,
        to_offset: u64,
        count: u64,
    )
        requires apart { from.0 ≢ to.0 }
        requires source { Exists self.old from.0 }
        requires target { Exists self.old to.0 }
        requires some { 0 < count }
        requires from_page { from_offset % 4096 + count ≤ 4096 }
        requires to_page { to_offset % 4096 + count ≤ 4096 }
        requires there { from_offset + count ≤ length (space_at self.old from.0).bytes }
        requires room { to_offset + count ≤ length (space_at self.old to.0).bytes }
        ensures { let bytes = (space_at self.old from.0).bytes in
            self.new ≡ with_bytes_at self.old to.0 to_offset
            (slice_range bytes from_offset (from_offset + count)) }
    {
        let source = space_under(&self.spaces, from).run;
        let target = space_under(&self.spaces, to).run;
        let source = RunPlace {
            run: source,
            offset: from_offset as usize,
        };
        let target = RunPlace {
            run: target,
            offset: to_offset as usize,
        };
        copy_piece(&mut self.pool, &self.table, source, target, count as usize);
    }

    /// Returns the 4096 bytes of the page of a dataspace that contains `offset`, as they are stored.
    pub fn page(&self, ds: DsId, offset: u64) -> &[u8]
        requires exists { Exists self.now ds.0 }
        requires range { offset < length (space_at self.now ds.0).bytes }
        ensures bytes { let start = offset / 4096 * 4096 in
            result.now ≡ slice_range (space_at self.now ds.0).bytes start (start + 4096) }
        ensures size { length result.now ≡ 4096 }
    {
        let start = self.spaces.start(ds.0);
        run_page(&self.pool, &self.table, start, offset as usize)
    }

    /// Loads the little-endian word of 8 bytes at `offset` of a dataspace. `offset` is a multiple of 8.
    pub fn load_word(&self, ds: DsId, offset: u64) -> u64
        requires exists { Exists self.now ds.0 }
        requires aligned { offset % 8 ≡ 0 }
        requires range { offset + 8 ≤ length (space_at self.now ds.0).bytes }
        ensures { result
            ≡ word_of (slice_range (space_at self.now ds.0).bytes offset (offset + 8)) }
    {
        let start = self.spaces.start(ds.0);
        load_run(&self.pool, &self.table, start, offset as usize)
    }

    /// Stores `word` as 8 little-endian bytes at `offset` of a dataspace. Nothing else changes.
    pub fn store_word(&mut self, ds: DsId, offset: u64, word: u64)
        requires exists { Exists self.old ds.0 }
        requires aligned { offset % 8 ≡ 0 }
        requires range { offset + 8 ≤ length (space_at self.old ds.0).bytes }
        ensures written { self.new ≡ with_bytes_at self.old ds.0 offset (word_bytes word) }
        ensures part { let payer = (space_at self.old ds.0).payer in
            let after = part_with_bytes (part payer self.old) ds.0 offset (word_bytes word) in
            PartBecomes payer after self.old self.new }
    {
        let start = self.spaces.start(ds.0);
        store_run(&mut self.pool, &self.table, start, offset as usize, word);
    }

    /// Stores three words as 24 little-endian bytes at `offset` of a dataspace, in one page. `offset` is a multiple of 8.
    /// Nothing else changes.
    pub fn store_words(&mut self, ds: DsId, offset: u64, words: (u64, u64, u64))
        requires exists { Exists self.old ds.0 }
        requires aligned { offset % 8 ≡ 0 }
        requires page { offset % 4096 + 24 ≤ 4096 }
        requires range { offset + 24 ≤ length (space_at self.old ds.0).bytes }
        ensures { let bytes = word_bytes words.0 ++ word_bytes words.1 ++ word_bytes words.2 in
            self.new ≡ with_bytes_at self.old ds.0 offset bytes }
    {
        let start = self.spaces.start(ds.0);
        store_run_words(&mut self.pool, &self.table, start, offset as usize, words);
    }

    /// Charges an account for one capability that belongs to no dataspace.
    ///
    /// Refuses with `OutOfCaps` if the account has no unused capability. Nothing else refuses it.
    pub fn charge_cap(&mut self, account: AccountId) -> Result<(), Refusal>
        requires { IsOpenIn self.old account.0 }
        ensures refusal { result_err result ≡ shortage (account_in self.old account.0) 0 1 }
        ensures only { IfErr result (λ refusal. refusal ≡ OutOfCaps) }
        ensures ok { OnOk result (
            self.new ≡ with_account_in self.old account.0
            (charged (account_in self.old account.0) 0 1)) }
        ensures part { OnOk result (
            PartBecomes account.0 (charged_part (part account.0 self.old) 1) self.old self.new) }
        ensures err { OnErr result (self.new ≡ self.old) }
        ensures paid { len (part account.0 self.new).spaces
            ≤ (account_in self.new account.0).caps_used }
    {
        self.books.charge(account, Ram(0), Caps(1))
    }

    /// Credits an account with one capability. The account must use more capabilities than those of its dataspaces.
    pub fn credit_cap(&mut self, account: AccountId)
        requires open { IsOpenIn self.old account.0 }
        requires spare { len (part account.0 self.old).spaces
            < (account_in self.old account.0).caps_used }
        ensures credited { self.new
            ≡ with_account_in self.old account.0 (credited (account_in self.old account.0) 0 1) }
        ensures part { PartBecomes account.0
            (credited_part (part account.0 self.old) 1) self.old self.new }
        ensures paid { len (part account.0 self.new).spaces
            ≤ (account_in self.new account.0).caps_used }
    {
        self.books.credit(account, Ram(0), Caps(1));
    }

    /// Returns the key of the root account, which is always open.
    pub fn root(&self) -> AccountId
        ensures key { result.0 ≡ root_in self.now }
        ensures open { IsOpenIn self.now result.0 }
    {
        self.books.root()
    }

    /// Opens an account whose limits move from the parent: RAM in bytes, and capabilities. Returns the new account's key;
    /// the account has no use yet.
    ///
    /// Refuses with `OutOfRam` if the parent has less unused RAM, then with `OutOfCaps` if it has fewer unused
    /// capabilities.
    pub fn open(&mut self, parent: AccountId, ram: Ram, caps: Caps) -> Result<AccountId, Refusal>
        requires parent { IsOpenIn self.old parent.0 }
        requires room { 0 < room_in self.old }
        ensures refusal { result_err result
            ≡ shortage (account_in self.old parent.0) ram.0 caps.0 }
        ensures ok { IfOk result
            (λ child. self.new ≡ with_child_in self.old parent.0 child.0 ram.0 caps.0) }
        ensures fresh { IfOk result (λ child. get (accounts_in self.old) child.0 ≡ None) }
        ensures leaf { IfOk result (λ child. IsLeafIn self.new child.0) }
        ensures part { IfOk result
            (λ child. OpensPart parent.0 child.0 ram.0 caps.0 self.old self.new) }
        ensures err { OnErr result (self.new ≡ self.old) }
        ensures ram_moved { ram_limits_in self.new ≡ ram_limits_in self.old }
        ensures caps_moved { caps_limits_in self.new ≡ caps_limits_in self.old }
    {
        self.books.open(parent, ram, caps)
    }

    /// Moves an amount of the parent's limits to its child: RAM in bytes, and capabilities.
    ///
    /// Refuses with `OutOfRam` if the parent has less unused RAM, then with `OutOfCaps` if it has fewer unused
    /// capabilities.
    pub fn raise(
        &mut self,
        parent: AccountId,
        child: AccountId,
        ram: Ram,
        caps: Caps,
    ) -> Result<(), Refusal>
        requires { IsChildIn self.old child.0 parent.0 }
        ensures refusal { result_err result
            ≡ shortage (account_in self.old parent.0) ram.0 caps.0 }
        ensures ok { OnOk result
            (self.new ≡ with_moved_in self.old parent.0 child.0 ram.0 caps.0) }
        ensures part { OnOk result (RaisesPart parent.0 child.0 ram.0 caps.0 self.old self.new) }
        ensures err { OnErr result (self.new ≡ self.old) }
        ensures ram_moved { ram_limits_in self.new ≡ ram_limits_in self.old }
        ensures caps_moved { caps_limits_in self.new ≡ caps_limits_in self.old }
        ensures related { AreRelatedIn self.old child.0 parent.0 }
    {
        self.books.raise(parent, child, ram, caps)
    }

    /// Moves an amount of an account's limits to another account of the same parent: RAM in bytes, and capabilities.
    ///
    /// Refuses with `OutOfRam` if the source has less unused RAM, then with `OutOfCaps` if it has fewer unused
    /// capabilities.
    pub fn shift(
        &mut self,
        from: AccountId,
        to: AccountId,
        ram: Ram,
        caps: Caps,
    ) -> Result<(), Refusal>
        requires { AreSiblingsIn self.old from.0 to.0 }
        ensures refusal { result_err result ≡ shortage (account_in self.old from.0) ram.0 caps.0 }
        ensures ok { OnOk result (self.new ≡ with_moved_in self.old from.0 to.0 ram.0 caps.0) }
        ensures part { OnOk result (ShiftsPart from.0 to.0 ram.0 caps.0 self.old self.new) }
        ensures err { OnErr result (self.new ≡ self.old) }
        ensures ram_moved { ram_limits_in self.new ≡ ram_limits_in self.old }
        ensures caps_moved { caps_limits_in self.new ≡ caps_limits_in self.old }
        ensures from { IsOpenIn self.old from.0 }
        ensures to { IsOpenIn self.old to.0 }
    {
        self.books.shift(from, to, ram, caps)
    }

    /// Closes an account that is not the root and has no child. It may use no capability, so it pays for no dataspace.
    /// Its limits return to its parent.
    pub fn close(&mut self, account: AccountId)
        requires child { IsSome (get (parents_in self.old) account.0) }
        requires leaf { IsLeafIn self.old account.0 }
        requires unused { (account_in self.old account.0).caps_used ≡ 0 }
        ensures closed { self.new ≡ without_account_in self.old account.0 }
        ensures part { ClosesPart account.0 (parent_in self.old account.0) self.old self.new }
        ensures ram_moved { ram_limits_in self.new ≡ ram_limits_in self.old }
        ensures caps_moved { caps_limits_in self.new ≡ caps_limits_in self.old }
        ensures related { AreRelatedIn self.old account.0 (parent_in self.old account.0) }
    {
        self.books.close(account);
    }

    /// Returns an account's limits of RAM, in bytes, and of capabilities.
    pub fn limits(&self, account: AccountId) -> (Ram, Caps)
        requires { IsOpenIn self.now account.0 }
        ensures ram { result.0.0 ≡ (account_in self.now account.0).ram_limit }
        ensures caps { result.1.0 ≡ (account_in self.now account.0).caps_limit }
        ensures within { WithinLimits (account_in self.now account.0) }
    {
        self.books.limits(account)
    }

    /// Returns an account's use of RAM, in bytes, and of capabilities.
    pub fn used(&self, account: AccountId) -> (Ram, Caps)
        requires { IsOpenIn self.now account.0 }
        ensures ram { result.0.0 ≡ (account_in self.now account.0).ram_used }
        ensures caps { result.1.0 ≡ (account_in self.now account.0).caps_used }
        ensures within { WithinLimits (account_in self.now account.0) }
    {
        self.books.used(account)
    }
}

/// Returns `bytes` rounded up to whole pages, or `None` if `bytes` is 0 or the result exceeds 64 bits.
fn valid_size(bytes: u64) -> Option<u64>
    ensures valid { result ≡ (if is_valid_size bytes then Some (page_of bytes) else None) }
    ensures rounded { IfSome result (λ size. size ≡ page_of bytes) }
    ensures some { IfSome result (λ _. 1 ≤ bytes) }
{
    if bytes == 0 { None } else { page_round(bytes) }
}
