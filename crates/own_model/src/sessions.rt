//! Theorems on sessions: what is charged to them, what servers hold for them, and that a close returns the donations.
ghost use Rattle.own_model.specs.SharedBufferTheorems.{StartsLent, RunKeepsLent, BuffersAreIndependent, ClosedBuffersHaveNoRegions, RequestsAreServed, SessionCallsLeaveOthers};
ghost use Rattle.own_model.specs.SessionTheorems.{StartsWithoutSessions, RunKeepsCharges, RunKeepsKept, SessionsHaveTheirServers, SessionsAreIndependent, LimitsAreDonations, ClosesReturnDonations};

/// States that no component starts with a session. After any calls the account of each session uses exactly the charges
/// of the session and its buffer. The server's state of each session is well-formed.
pub fn sessions_stay_sound()
    ensures start { StartsWithoutSessions }
    ensures charges { RunKeepsCharges }
    ensures kept { RunKeepsKept }
{}

/// States that each buffer belongs to one open session, and each session has at most one buffer: at the start and after
/// any calls.
pub fn buffers_are_of_sessions()
    ensures start { StartsLent }
    ensures run { RunKeepsLent }
{}

/// States that a session changes only through the upgrades, requests and the close that name its selector, and through
/// its client's exit.
pub fn sessions_are_independent()
    ensures { SessionsAreIndependent }
{}

/// States that a session belongs to the server to which its client's routes resolved the `open` call, for its whole life.
pub fn sessions_have_their_servers()
    ensures { SessionsHaveTheirServers }
{}

/// States that a buffer changes only through calls of its session and through pokes into its own regions, which change
/// its bytes only. A call that removes the buffer's selector also detaches the buffer's regions.
pub fn buffers_are_independent()
    ensures alone { BuffersAreIndependent }
    ensures gone { ClosedBuffersHaveNoRegions }
{}

/// States that the session and buffer of the named selector process the request, and are afterwards what the session made
/// of them. A new buffer is zero and has the new selector, which the reply contains. All that other selectors name, and
/// all other regions, stay; a close keeps them too.
pub fn requests_are_served()
    ensures served { RequestsAreServed }
    ensures others { SessionCallsLeaveOthers }
{}

/// States that a close returns to its client the donations of the accepted open and upgrades, as read from the client's
/// own calls. The client's use stays the same.
pub fn closes_return_donations()
    ensures limits { LimitsAreDonations }
    ensures closes { ClosesReturnDonations }
{}
