//! The trait that routes session requests to components.
ghost use Rattle.std.specs.Prelude.{◌≡◌, ◌≤◌, ℕ, List, Option, length};
ghost use Rattle.pd_core.specs.Component.{Place};

/// A router of session requests: finds the component that serves a request.
pub trait Router {
    // The entry of the start list at a place: the name of the component, its init, and the routes of its requests.
    ghost places: { Self → ℕ → Place };

    // The place of the component that serves a request of the component at a place, for a service by its name, with a given
    // label.
    ghost leads: { Self → ℕ → List ℕ → List ℕ → Option ℕ };

    /// Returns the place of the component that serves a request of the component at a place, for a service by its name. The
    /// given label has at most 64 bytes. Returns `None` if the request is denied.
    fn provider(&self, client: usize, service: &[u8], label: &[u8]) -> Option<usize>
        requires { length label.now ≤ 64 }
        ensures { result ≡ leads self.now client service.now label.now };
}
