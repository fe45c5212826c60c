//! The meter of a session's account, request by request.
ghost use Rattle.std.specs.Prelude.{◌≡◌, ◌<◌, ◌^◌, ◌∷◌, ◌++◌, [], ℕ, true, false, List, Some, None, is_some, IfOk, OnOk, Option};
ghost use Rattle.std.specs.Option.{option_copied, option_map};
ghost use Rattle.own_model.specs.Amounts.{Amounts};
ghost use Rattle.own_model.specs.FileService.{Files};
ghost use Rattle.own_model.specs.OwnState.{NamedBuffer, bytes_of_buffer};
ghost use Rattle.own_model.specs.Session.{Session, Wish, new_session, offer_of, served, too_small, upgraded};
ghost use Rattle.core_calls.specs.Quotas.{quotas_account};
ghost use Rattle.object_kinds.specs.Offered.{offered_kinds};
ghost use Rattle.session_proto.specs.File.{HasHex, model_request};
ghost use Rattle.budget_theorems.specs.Request.{donating};
ghost use Rattle.budget_theorems.specs.RequestTheorems.{Reaches, session_run};
ghost use Rattle.budget_theorems.specs.RequestTheorems.Reaches.{Raised};
ghost use Rattle.budget_theorems.specs.Request.{write_tests};
ghost use Rattle.own_model.specs.FileService.{file_named};
ghost use Rattle.budget_meter.specs.Asked.{asked_in, content_asked, filing_asked};
ghost use Rattle.budget_meter.specs.NeededAmounts.{AsksAs, amount_tests, is_create};
ghost use Rattle.budget_meter.specs.Needs.{amounts_of, shown_in, shown_of, together};
ghost use Rattle.budget_meter.specs.SessionRuns.{Sent};
ghost use Rattle.budget_meter.specs.SessionRuns.Sent.{Asks, Raises};
ghost use Rattle.budget_meter.specs.ObjectSizes.{new_known};
ghost use Rattle.budget_meter.specs.Sessions.{HasReached, IsAt, IsLeft, IsServedBy, Observes, Shows};
ghost use Rattle.budget_meter.specs.Sizes.{Keeps};
ghost use Rattle.budget_meter.specs.RequestTests.{growth_by_reply, tests_by_reply};

use crate::budget::Budget;
use crate::file_sizes::{FileSizes, byte_count};
use crate::growth::{FIRST_PAGES, take_growth};
use crate::meter::{Meter, limits_of};
use crate::needed_amounts::{NODE, least_chunk, longer, whole_pages};
use crate::object_requests::{ServedRequest, object_amounts, take_object_request};
use crate::object_sizes::ObjectSizes;
use crate::outcomes::{is_granted, is_short, shows_charge};
use core_calls::Answer;
use object_kinds::ObjectKind;
use pd_core::Quotas;
use session_proto::{FileRequest, ObjectRequest};
use std::alloc::{AllocError, Global};

/// A meter of a session's account: the minimum opening donation that passes all tests so far, including that of the opening.
#[derive(Drop)]
pub struct SessionMeter {
    pub meter: Meter,
    alloc: Global,
    /// The account after the last request or upgrade.
    account: Quotas,
    /// The growth number of the heap of the session's files or objects.
    pages: u32,
    sizes: FileSizes,
    /// The objects, if the session is one of a declared server.
    objects: Option<ObjectSizes>,
}

impl SessionMeter {
    /// Creates the meter of a session that was just opened. Its server offers objects of these kinds, or none if it is one of a
    /// built-in service. Returns an error if the host is out of memory.
    pub fn new(
        alloc: Global,
        account: Quotas,
        kinds: Option<&[ObjectKind]>,
    ) -> Result<SessionMeter, AllocError>
        ensures { IfOk result (λ meter. (wish : Wish) →
            option_copied kinds.entry ≡ offered_kinds (offer_of (new_session wish).state) →
            too_small wish.ram wish.caps ≡ None →
            quotas_account account ≡ (new_session wish).account →
            HasReached [] (record { ram = wish.ram; caps = wish.caps }) (new_session wish) meter) }
    {
        Ok(SessionMeter {
            meter: Meter::opened(limits_of(account)),
            alloc,
            account,
            pages: FIRST_PAGES,
            sizes: FileSizes::new(alloc),
            objects: objects_of(alloc, kinds)?,
        })
    }

    /// Returns the minimum donation that passes the tests so far.
    pub fn least(&self) -> Budget
        ensures { result ≡ self.now.meter.least }
    {
        self.meter.least
    }

    /// Returns the amounts that a request needs of the session's account, by the size of the file that it writes, or by the
    /// object that it creates or resizes.
    pub fn asked(&self, request: &[u8]) -> Option<Budget>
        ensures { (session : Session) → IsAt self.now session →
            amount_tests result ≡ asked_in session.state request.now }
    {
        match &self.objects {
            Some(objects) => object_amounts(objects, ObjectRequest::read(request)?),
            None => self.file_amounts(FileRequest::read(request)?),
        }
    }

    // Returns the amounts that a request of files needs.
    fn file_amounts(&self, request: FileRequest<'_>) -> Option<Budget>
        requires { HasHex request }
        ensures { (files : Files) → Keeps self.now.sizes files.files →
            amount_tests result ≡ filing_asked (Some (model_request request.entry)) files }
    {
        match request {
            FileRequest::Create(_) => least_chunk(NODE),
            FileRequest::Write { file, offset, hex } => {
                self.content(file, offset, byte_count(hex))
            }
            FileRequest::Put {
                file,
                offset,
                len,
                ..
            } => self.content(file, offset, len),
            FileRequest::Buffer(n) => whole_pages(n),
            _ => None,
        }
    }

    /// Observes the account after an upgrade, whether the upgrade was refused or not.
    pub fn raise(&mut self, account: Quotas)
        ensures raised { (all : List Reaches) (donation more : Amounts) (session : Session) →
            HasReached all donation session self.old →
            quotas_account account
            ≡ (upgraded (session_run all (donating donation session)) more.ram more.caps).account →
            HasReached (all ++ Raised more ∷ []) donation session self.new }
        ensures left { (sent rest : List Sent) (donation more : Amounts) (session now : Session)
            (buffer : Option (List ℕ)) →
            IsLeft sent (Raises more ∷ rest) donation session buffer now self.old →
            quotas_account account ≡ (upgraded now more.ram more.caps).account →
            IsLeft sent rest donation session buffer (upgraded now more.ram more.caps) self.new }
        ensures refused { (all : List Reaches) (donation : Amounts) (session : Session) →
            HasReached all donation session self.old →
            quotas_account account ≡ (session_run all (donating donation session)).account →
            HasReached all donation session self.new }
    {
        self.account = account;
    }

    /// Observes a request, with its reply and the account that it left. Returns an error if the host is out of memory.
    pub fn hear(
        &mut self,
        request: &[u8],
        reply: Answer<'_>,
        after: Quotas,
    ) -> Result<(), AllocError>
        ensures { OnOk result
            (Observes self.old self.new request.now reply.entry.text.now after) }
    {
        if self.objects.is_some() {
            self.hear_of_objects(request, reply, after)
        } else {
            self.hear_of_files(request, reply, after)
        }
    }

    // Observes a request of files, or of a log.
    fn hear_of_files(
        &mut self,
        request: &[u8],
        reply: Answer<'_>,
        after: Quotas,
    ) -> Result<(), AllocError>
        requires none { self.old.objects ≡ None }
        ensures { OnOk result
            (Observes self.old self.new request.now reply.entry.text.now after) }
    {
        let Some(request) = FileRequest::read(request) else {
            self.account = after;
            return Ok(());
        };
        self.take(request, reply, after);
        self.account = after;
        self.sizes.keep(self.alloc, request, reply)?;
        Ok(())
    }

    // Observes a request of objects.
    fn hear_of_objects(
        &mut self,
        request: &[u8],
        reply: Answer<'_>,
        after: Quotas,
    ) -> Result<(), AllocError>
        requires some { is_some self.old.objects ≡ true }
        ensures { OnOk result
            (Observes self.old self.new request.now reply.entry.text.now after) }
    {
        let Some(request) = ObjectRequest::read(request) else {
            self.account = after;
            return Ok(());
        };
        let Some(objects) = &mut self.objects else {
            return Ok(());
        };
        let before = self.account;
        let served = ServedRequest {
            reply,
            before,
            after,
        };
        self.pages = take_object_request(&mut self.meter, self.pages, objects, request, served);
        self.account = after;
        objects.keep(self.alloc, request, reply)?;
        Ok(())
    }

    /// Observes a request of a run, and returns whether the account is short of quota for it. Returns an error if the host
    /// is out of memory.
    pub fn follow(
        &mut self,
        request: &[u8],
        reply: Answer<'_>,
        after: Quotas,
    ) -> Result<bool, AllocError>
        ensures on { IfOk result (λ wants. wants ≡ false →
            (sent rest : List Sent) (donation : Amounts) (session now : Session)
            (buffer : Option NamedBuffer) →
            IsLeft sent (Asks request.now ∷ rest) donation session (bytes_of_buffer buffer) now
            self.old →
            IsServedBy reply.entry.text.now after buffer (served (bytes_of_buffer buffer) now request.now) →
            IsLeft sent rest donation session
            (served (bytes_of_buffer buffer) now request.now).buffer
            (served (bytes_of_buffer buffer) now request.now).session self.new) }
        ensures end { IfOk result (λ wants. wants ≡ true →
            (sent rest : List Sent) (donation : Amounts) (session now : Session)
            (buffer : Option NamedBuffer) →
            IsLeft sent (Asks request.now ∷ rest) donation session (bytes_of_buffer buffer) now
            self.old →
            IsServedBy reply.entry.text.now after buffer (served (bytes_of_buffer buffer) now request.now) →
            Shows sent session donation true self.new.meter) }
    {
        self.hear(request, reply, after)?;
        Ok(is_short(reply))
    }

    // Measures the tests of a request that is answered.
    fn take(&mut self, request: FileRequest<'_>, reply: Answer<'_>, after: Quotas)
        requires { HasHex request }
        ensures shown { (files : Files) → self.old.account.ram_limit.0 < 2 ^ 64 →
            self.old.pages ≡ files.shape.growth → Keeps self.old.sizes files.files →
            shown_in self.new.meter ≡ together (shown_in self.old.meter)
            (shown_of (amounts_of self.old.meter.start) (quotas_account self.old.account)
            (tests_by_reply (Some (model_request request.entry)) reply.entry.text.now
            (quotas_account self.old.account) (quotas_account after) files)) }
        ensures pages { (files : Files) → self.old.pages ≡ files.shape.growth →
            self.new.pages ≡ growth_by_reply (Some (model_request request.entry)) reply.entry.text.now
            (quotas_account self.old.account) (quotas_account after) files }
        ensures start { self.new.meter.start ≡ self.old.meter.start }
        ensures sizes { self.new.sizes ≡ self.old.sizes }
        ensures objects { self.new.objects ≡ self.old.objects }
    {
        if is_create(request) {
            if shows_charge(reply, self.account, after) {
                let before = self.account;
                self.pages = take_growth(&mut self.meter, self.pages, NODE, before, after);
            }
        } else if let Some(asked) = self.asked_when_told(request, reply, after) {
            self.meter.take(self.account, asked, false);
        }
    }

    // The amounts that an answered request tests, if it makes exactly one test: all requests except those for a new file.
    fn asked_when_told(
        &self,
        request: FileRequest<'_>,
        reply: Answer<'_>,
        after: Quotas,
    ) -> Option<Budget>
        requires { HasHex request }
        ensures { is_create (model_request request.entry) ≡ false → (files : Files) →
            Keeps self.now.sizes files.files →
            AsksAs result (tests_by_reply (Some (model_request request.entry)) reply.entry.text.now
            (quotas_account self.now.account) (quotas_account after) files) }
    {
        match request {
            FileRequest::Write { file, offset, hex } => {
                self.content(file, offset, byte_count(hex))
            }
            FileRequest::Put {
                file,
                offset,
                len,
                ..
            } => {
                if is_granted(reply) || is_short(reply) {
                    self.content(file, offset, len)
                } else {
                    None
                }
            }
            FileRequest::Buffer(n) => {
                if shows_charge(reply, self.account, after) {
                    whole_pages(n)
                } else {
                    None
                }
            }
            _ => None,
        }
    }

    // The amounts for `count` bytes of a file from an offset on, if they lengthen the file.
    fn content(&self, file: &[u8], offset: u64, count: u64) -> Option<Budget>
        ensures shown { (files : Files) → Keeps self.now.sizes files.files →
            AsksAs result (write_tests offset count (file_named file.now files)) }
        ensures asked { (files : Files) → Keeps self.now.sizes files.files →
            amount_tests result ≡ content_asked offset count file.now files }
    {
        let size = self.sizes.size(file)?;
        if size < offset {
            return None;
        }
        longer(size, offset.saturating_add(count))
    }
}

// The objects of a new session, of a server that offers objects of these kinds, if it does.
fn objects_of(
    alloc: Global,
    kinds: Option<&[ObjectKind]>,
) -> Result<Option<ObjectSizes>, AllocError>
    ensures { IfOk result (λ objects. objects ≡ option_map new_known (option_copied kinds.entry)) }
{
    match kinds {
        Some(kinds) => Ok(Some(ObjectSizes::new(alloc, kinds)?)),
        None => Ok(None),
    }
}

// Whether a request creates a file.
fn is_create(request: FileRequest<'_>) -> bool
    ensures { result ≡ is_create (model_request request.entry) }
{
    matches!(request, FileRequest::Create(_))
}
