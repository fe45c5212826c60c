//! The tests of the requests of a session of objects.
ghost use Rattle.std.specs.Prelude.{◌≡◌, [], false, List, Some, if◌then◌else◌};
ghost use Rattle.std.specs.Option.{option_copied};
ghost use Rattle.own_model.specs.Growth.{Shape};
ghost use Rattle.core_calls.specs.Quotas.{quotas_account};
ghost use Rattle.session_proto.specs.Objects.{model_request};
ghost use Rattle.own_model.specs.ObjectKinds.{ObjectKind as ModelKind};
ghost use Rattle.own_model.specs.ObjectService.{Objects};
ghost use Rattle.budget_meter.specs.Asked.{holding_asked};
ghost use Rattle.budget_meter.specs.NeededAmounts.{amount_tests};
ghost use Rattle.budget_meter.specs.ObjectSizes.{known_of};
ghost use Rattle.budget_meter.specs.Needs.{amounts_of, shown_in, shown_of, together};
ghost use Rattle.budget_meter.specs.ObjectTests.{is_make, kind_growth, kind_tests, object_growth, object_tests};
ghost use Rattle.budget_meter.specs.RequestTests.{shows_charge};

use crate::budget::Budget;
use crate::growth::take_growth;
use crate::meter::Meter;
use crate::needed_amounts::{least_chunk, whole_pages};
use crate::object_sizes::ObjectSizes;
use crate::outcomes::shows_charge;
use core_calls::Answer;
use object_kinds::ObjectKind;
use pd_core::Quotas;
use session_proto::ObjectRequest;

/// The reply to a request, and the session's account before the request and after it.
#[derive(Clone, Copy)]
pub(crate) struct ServedRequest<'a> {
    pub(crate) reply: Answer<'a>,
    pub(crate) before: Quotas,
    pub(crate) after: Quotas,
}

/// Measures the tests of an answered request of objects. Returns the growth number of the heap of nodes after it.
pub(crate) fn take_object_request(
    meter: &mut Meter,
    pages: u32,
    objects: &ObjectSizes,
    request: ObjectRequest<'_>,
    served: ServedRequest<'_>,
) -> u32
    ensures shown { (shape : Shape) → pages ≡ shape.growth →
        shown_in meter.new ≡ together (shown_in meter.old)
        (shown_of (amounts_of meter.old.start) (quotas_account served.entry.before)
        (object_tests (Some (model_request request.entry)) served.entry.reply.text.now
        (quotas_account served.entry.before) (quotas_account served.entry.after) objects.now shape)) }
    ensures pages { (shape : Shape) → pages ≡ shape.growth →
        result ≡ object_growth (Some (model_request request.entry)) served.entry.reply.text.now
        (quotas_account served.entry.before) (quotas_account served.entry.after) objects.now shape }
    ensures start { meter.new.start ≡ meter.old.start }
{
    match request {
        ObjectRequest::Make { kind, .. } => take_node(meter, pages, objects.kind(kind), served),
        _ => {
            take_once(
                meter,
                asked_when_told(objects, request, served),
                served.before,
            );
            pages
        }
    }
}

/// Returns the amounts that a request of objects needs of its session's account.
pub(crate) fn object_amounts(objects: &ObjectSizes, request: ObjectRequest<'_>) -> Option<Budget>
    ensures { (kinds : List ModelKind) (stored : Objects) → objects.now ≡ known_of kinds stored →
        amount_tests result ≡ holding_asked kinds (Some (model_request request.entry)) stored }
{
    match request {
        ObjectRequest::Make { kind, .. } => least_chunk(u64::from(objects.kind(kind)?.block())),
        ObjectRequest::Resize { name, units } => objects.resized(name, units),
        ObjectRequest::Buffer(n) => whole_pages(n),
        _ => None,
    }
}

// The amounts that an answered request tests, if it makes exactly one test: all requests except those for a new object.
fn asked_when_told(
    objects: &ObjectSizes,
    request: ObjectRequest<'_>,
    served: ServedRequest<'_>,
) -> Option<Budget>
    ensures { is_make (model_request request.entry) ≡ false → (shape : Shape) →
        amount_tests result ≡ object_tests (Some (model_request request.entry)) served.entry.reply.text.now
        (quotas_account served.entry.before) (quotas_account served.entry.after) objects.now shape }
{
    match request {
        ObjectRequest::Resize { name, units } => objects.resized(name, units),
        ObjectRequest::Buffer(n) => {
            if shows_charge(served.reply, served.before, served.after) {
                whole_pages(n)
            } else {
                None
            }
        }
        _ => None,
    }
}

// Measures the tests of a request for a new object: the heap of nodes has to grow, if the account shows it.
fn take_node(
    meter: &mut Meter,
    pages: u32,
    kind: Option<&ObjectKind>,
    served: ServedRequest<'_>,
) -> u32
    ensures shown { (shape : Shape) → pages ≡ shape.growth →
        shown_in meter.new ≡ together (shown_in meter.old)
        (shown_of (amounts_of meter.old.start) (quotas_account served.entry.before)
        (if shows_charge served.entry.reply.text.now (quotas_account served.entry.before) (quotas_account served.entry.after)
        then kind_tests (option_copied kind.entry) shape (quotas_account served.entry.before) else [])) }
    ensures pages { (shape : Shape) → pages ≡ shape.growth →
        result ≡ (if shows_charge served.entry.reply.text.now (quotas_account served.entry.before) (quotas_account served.entry.after)
        then kind_growth (option_copied kind.entry) (quotas_account served.entry.before) (quotas_account served.entry.after) shape
        else shape.growth) }
    ensures start { meter.new.start ≡ meter.old.start }
{
    if !shows_charge(served.reply, served.before, served.after) {
        return pages;
    }
    match kind {
        Some(kind) => take_growth(
            meter,
            pages,
            u64::from(kind.block()),
            served.before,
            served.after,
        ),
        None => pages,
    }
}

// Measures one test of these amounts, or none.
fn take_once(meter: &mut Meter, asked: Option<Budget>, account: Quotas)
    ensures shown { shown_in meter.new ≡ together (shown_in meter.old)
        (shown_of (amounts_of meter.old.start) (quotas_account account) (amount_tests asked)) }
    ensures start { meter.new.start ≡ meter.old.start }
{
    if let Some(asked) = asked {
        meter.take(account, asked, false);
    }
}
