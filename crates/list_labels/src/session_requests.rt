//! The session requests of one client for one service.
use list_parser::StartList;

/// The session requests of a component of a start list, by its number, for a service, with any label.
#[derive(Clone, Copy)]
pub struct SessionRequests<'a> {
    /// The start list.
    pub list: &'a StartList,
    /// The number of the component among the entries of all lists.
    pub client: usize,
    /// The name of the service.
    pub service: &'a [u8],
}
