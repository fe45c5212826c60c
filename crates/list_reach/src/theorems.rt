//! The reply to a script's session request, by the component to which it is routed.
ghost use Rattle.list_reach.specs.RequestTheorems.{RequestsAreDenied, RequestsAreOpened};

/// Proves what a request of a script that hasn't exited is answered, if its arguments are in the grammar. The request is denied
/// if its label is routed to no component. Otherwise it is routed to a server. The server opens a session if the donation is at
/// least 4096 bytes and 2 capabilities and the account covers it.
pub fn requests_are_answered()
    ensures denied { RequestsAreDenied }
    ensures opened { RequestsAreOpened }
{}
