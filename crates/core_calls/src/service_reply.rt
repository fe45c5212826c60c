//! The replies of services to the requests of sessions.
ghost use Rattle.std.specs.Prelude.{◌≡◌, ◌+◌, ◌*◌, ◌<◌, ◌≤◌, ◌++◌, length, decimal};
ghost use Rattle.own_model.specs.FileText.{bytes_reply, file_reply};
ghost use Rattle.own_model.specs.FileText.FileReply.{Count, Done, Lent, Named, Quotas as SessionQuotas, Refused};
ghost use Rattle.own_model.specs.ObjectText as objects;
ghost use Rattle.own_model.specs.ObjectText.{object_reply};
ghost use Rattle.core_calls.specs.FileError.{model_error};
ghost use Rattle.core_calls.specs.ObjectError.{model_object_error};
ghost use Rattle.core_calls.specs.Quotas.{quotas_account};

use crate::file_error::FileError;
use crate::object_error::ObjectError;
use crate::outcome::{Outcome, ServiceOutcome};
use crate::quotas::Quotas;
use crate::reply::Reply;
use trade_base::Selector;

impl Reply {
    /// Sets the reply to a request that is done, and keeps the log lines.
    pub fn serve_done(&mut self)
        ensures { self.new ≡ record self.old { text = file_reply Done } }
    {
        self.text.replace(b"OK");
        self.outcome = Outcome::Served(ServiceOutcome::Done);
    }

    /// Sets the reply to a count of bytes, and keeps the log lines.
    pub fn serve_count(&mut self, count: u64)
        ensures { self.new ≡ record self.old { text = file_reply (Count count) } }
    {
        self.text.replace(b"OK ");
        self.text.add_number(count);
        self.outcome = Outcome::Served(ServiceOutcome::Count(count));
    }

    /// Sets the reply to bytes of a file in lower-case hexadecimal digits, and keeps the log lines. With no bytes, the
    /// request is done.
    #[tactic(auto, using(crate::proofs::ReplyLemmas::reply_of_none, crate::proofs::ReplyLemmas::reply_of_some))]
    pub fn serve_bytes(&mut self, bytes: &[u8])
        requires { 3 + 2 * length bytes.now ≤ 2100 }
        ensures { self.new ≡ record self.old { text = bytes_reply bytes.now } }
    {
        if bytes.is_empty() {
            self.serve_done();
        } else {
            self.serve_some(bytes);
        }
    }

    // Sets the reply to at least one byte of a file, as `serve_bytes` does.
    #[tactic(auto, using(crate::proofs::ReplyLemmas::reply_of_some))]
    fn serve_some(&mut self, bytes: &[u8])
        requires some { 0 < length bytes.now }
        requires room { 3 + 2 * length bytes.now ≤ 2100 }
        ensures { self.new ≡ record self.old { text = bytes_reply bytes.now } }
    {
        self.text.replace(b"OK ");
        self.text.add_hex(bytes);
        self.outcome = Outcome::Served(ServiceOutcome::Bytes);
    }

    /// Sets the reply to the name of a file, and keeps the log lines.
    pub fn serve_name(&mut self, name: &[u8])
        requires { 3 + length name.now ≤ 2100 }
        ensures { self.new ≡ record self.old { text = file_reply (Named name.now) } }
    {
        self.text.replace(b"OK ");
        self.text.add(name);
        self.outcome = Outcome::Served(ServiceOutcome::Name);
    }

    /// Sets the reply to an object's kind, name and units, and keeps the log lines.
    pub fn serve_object(&mut self, kind: &[u8], name: &[u8], units: u64)
        requires { length kind.now + length name.now ≤ 2075 }
        ensures { self.new
            ≡ record self.old { text = object_reply (objects.ObjectReply.Named kind.now name.now units) } }
    {
        self.text.replace(b"OK ");
        self.text.add(kind);
        self.text.add(b" ");
        self.text.add(name);
        self.text.add(b" ");
        self.text.add_number(units);
        self.outcome = Outcome::Served(ServiceOutcome::Object);
    }

    /// Sets the reply to use and limit of the session's account, and keeps the log lines.
    pub fn serve_quotas(&mut self, quotas: Quotas)
        ensures { self.new
            ≡ record self.old { text = file_reply (SessionQuotas (quotas_account quotas)) } }
    {
        self.text.replace(b"OK ");
        self.text.add_quotas(quotas);
        self.outcome = Outcome::Served(ServiceOutcome::Quotas(quotas));
    }

    /// Sets the reply to a buffer that was created, and keeps the log lines. `add_selector` appends the selector.
    pub fn serve_buffer(&mut self)
        ensures { self.new ≡ record self.old { text = file_reply Lent } }
    {
        self.text.replace(b"OK cap ");
        self.outcome = Outcome::Served(ServiceOutcome::Lent(None));
    }

    /// Appends the client's selector of the buffer to the reply that a buffer was created.
    pub fn add_selector(&mut self, selector: Selector)
        requires { self.old.text ≡ file_reply Lent }
        ensures { self.new ≡ record self.old { text = self.old.text ++ decimal selector.0 } }
    {
        self.text.add_number(u64::from(selector.0));
        self.outcome = Outcome::Served(ServiceOutcome::Lent(Some(selector)));
    }

    /// Sets the reply to the error with which a request is refused, and keeps the log lines.
    pub fn serve_error(&mut self, error: FileError)
        ensures { self.new
            ≡ record self.old { text = file_reply (Refused (model_error error)) } }
    {
        self.text.replace(b"ERR ");
        self.text.add(error.name().as_bytes());
        self.outcome = Outcome::Served(ServiceOutcome::Refused(error));
    }

    /// Sets the reply to the error with which a declared server refuses a request, and keeps the log lines.
    pub fn serve_object_error(&mut self, error: ObjectError)
        ensures { self.new ≡ record self.old {
          text = object_reply (objects.ObjectReply.Refused (model_object_error error));
        } }
    {
        match error {
            ObjectError::BadKind => self.serve_bad_kind(),
            ObjectError::Shared(error) => self.serve_error(error),
        }
    }

    // Sets the reply to the error that the server offers no kind of a name, and keeps the log lines.
    fn serve_bad_kind(&mut self)
        ensures { self.new ≡ record self.old {
          text = object_reply (objects.ObjectReply.Refused objects.ObjectError.BadKind);
        } }
    {
        self.text.replace(b"ERR BAD_KIND");
        self.outcome = Outcome::Served(ServiceOutcome::BadKind);
    }
}
