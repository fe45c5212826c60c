//! To which servers the requests of scripts are routed, with some label that a client can give.
ghost use Rattle.std.specs.Prelude.{◌≡◌, ◌==◌, ◌&&◌, None};
ghost use Rattle.std.specs.List.{list_any};
ghost use Rattle.own_model.specs.Listed.{Listed};
ghost use Rattle.list_reach.specs.Deciding.{DecisionAt};
ghost use Rattle.list_findings.specs.Reached.{is_routed_to, is_sought, is_routed_at_all};
ghost use Rattle.list_findings.specs.Views.{ShowAll, ViewOf};

use crate::decision_views::DecisionView;

/// Returns whether some script's request is routed to the component of a number.
pub(crate) fn is_routed_to(views: &[DecisionView], child: usize) -> bool
    ensures { (list : Listed) → ShowAll list views.now → result ≡ is_routed_to list child }
{
    any_leads(views, Some(child))
}

/// Returns whether some request of a client, by its number, is routed to a server.
pub(crate) fn is_routed_at_all(views: &[DecisionView], client: usize) -> bool
    ensures { (list : Listed) → ShowAll list views.now → result ≡ is_routed_at_all list client }
{
    any_of(views, client)
}

// Whether requests of some view are routed to a child that is looked for.
fn any_leads(views: &[DecisionView], sought: Option<usize>) -> bool
    ensures { result ≡ list_any (λ (view : ViewOf).
        list_any (λ (trail : DecisionAt). is_sought sought trail.child) view.trails) views.now }
{
    views.iter().any(|view| leads(view, sought))
}

// Whether requests of some view of a client are routed to a server.
fn any_of(views: &[DecisionView], client: usize) -> bool
    ensures { result ≡ list_any (λ (view : ViewOf). view.client == client
        && list_any (λ (trail : DecisionAt). is_sought None trail.child) view.trails) views.now }
{
    views.iter().any(|view| is_of(view, client))
}

// Whether a view is of a client, and requests of it are routed to a server.
fn is_of(view: &DecisionView, client: usize) -> bool
    ensures { result ≡ (view.now.client == client
        && list_any (λ (trail : DecisionAt). is_sought None trail.child) view.now.trails) }
{
    view.client == client && leads(view, None)
}

// Whether some requests of a view are routed to a child that is looked for.
fn leads(view: &DecisionView, sought: Option<usize>) -> bool
    ensures { result
        ≡ list_any (λ (trail : DecisionAt). is_sought sought trail.child) view.now.trails }
{
    view.trails
        .as_slice()
        .iter()
        .any(|trail| is_sought(sought, trail.child()))
}

// Whether a child is the one that is looked for, or any child if none is named.
fn is_sought(sought: Option<usize>, led: Option<usize>) -> bool
    ensures { result ≡ is_sought sought led }
{
    match (sought, led) {
        (_, None) => false,
        (None, Some(_)) => true,
        (Some(child), Some(led)) => led == child,
    }
}
