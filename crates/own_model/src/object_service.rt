//! Theorems on declared servers and the objects of their sessions, and computed examples.
ghost use Rattle.std.specs.Prelude.{◌≡◌, codes};
ghost use Rattle.own_model.specs.ObjectRows.{window_replies_of};
ghost use Rattle.own_model.specs.ObjectTheorems.{NoObjectsAreObjects, RequestsKeepObjects, RequestsKeepObjectCharges, RequestsKeepObjectLimits, RequestsKeepObjectsWithinLimits, ObjectErrorsComeInOrder, OtherObjectRequestsAreServed, NodesAreHeapBlocks, MadeAreThere, ResizedHaveTheirUnits, SameUnitsAreKept, OtherObjectsStay, AllKeepObjects, AllKeepObjectCharges, AllKeepObjectLimits, AllKeepObjectsWithinLimits, AllFitObjectBuffers};

/// States that a session's objects are well-formed at first and after each request. Each object has a unique name, a kind
/// that its server offers, and one block for its node, and there are no other blocks.
pub fn objects_stay_objects()
    ensures first { NoObjectsAreObjects }
    ensures request { RequestsKeepObjects }
{}

/// States that a request of objects changes no limit and exceeds no limit, and that the account's use stays equal to the
/// charges for objects.
pub fn objects_are_charged()
    ensures charges { RequestsKeepObjectCharges }
    ensures limits { RequestsKeepObjectLimits }
    ensures within { RequestsKeepObjectsWithinLimits }
{}

/// States that a request of objects fails with the first error of its line in the table of requests whose condition holds,
/// and then changes nothing. If no condition holds, the request succeeds. The block of a kind that a list can declare is an
/// ordinary block of the session's heap.
pub fn object_errors_come_in_order()
    ensures order { ObjectErrorsComeInOrder }
    ensures others { OtherObjectRequestsAreServed }
    ensures nodes { NodesAreHeapBlocks }
{}

/// States what an object is after a successful request: a new object has its kind and no units, and a resized object has its
/// new units. A resize to an object's own units always succeeds and changes nothing. A request for one object leaves all
/// other objects unchanged.
pub fn objects_are_as_requested()
    ensures makes { MadeAreThere }
    ensures resizes { ResizedHaveTheirUnits }
    ensures same { SameUnitsAreKept }
    ensures others { OtherObjectsStay }
{}

/// States that each request of a session, also for its buffer, keeps the objects well-formed, changes no limit and exceeds no
/// limit. The account's use stays equal to the charges for objects and buffer. A new buffer has whole pages, and a buffer
/// never changes its length.
pub fn object_sessions_are_charged()
    ensures objects { AllKeepObjects }
    ensures charges { AllKeepObjectCharges }
    ensures limits { AllKeepObjectLimits }
    ensures within { AllKeepObjectsWithinLimits }
    ensures long { AllFitObjectBuffers }
{}

/// States a computed example of charges. A new object is charged its node's chunk at most. Other units are charged as one
/// block of contents before the old block is credited, also fewer units, and nothing is charged for no bytes.
pub fn object_requests_are_charged()
    ensures nodes { window_replies_of 32768 5
        (codes "STAT\nMAKE view a\nSTAT\nMAKE surface b\nSTAT\nRESIZE a 7\nSTAT\nNAME 0\n")
        ≡ codes "OK ram 4096/32768 caps 2/5\nOK\nOK ram 20480/32768 caps 3/5\nOK\nOK ram 20480/32768 caps 3/5\nOK\nOK ram 20480/32768 caps 3/5\nOK view a 7\n" }
    ensures contents { window_replies_of 32768 5
        (codes "MAKE surface b\nRESIZE b 100\nSTAT\nRESIZE b 1000\nSTAT\nRESIZE b 1017\nSTAT\nRESIZE b 1016\nSTAT\nRESIZE b 0\nSTAT\n")
        ≡ codes "OK\nOK\nOK ram 24576/32768 caps 4/5\nOK\nOK ram 24576/32768 caps 4/5\nOK\nOK ram 28672/32768 caps 4/5\nOK\nOK ram 24576/32768 caps 4/5\nOK\nOK ram 20480/32768 caps 3/5\n" }
    ensures drops { window_replies_of 32768 5
        (codes "MAKE view a\nMAKE surface b\nRESIZE b 1\nSTAT\nDROP b\nSTAT\nDROP a\nSTAT\n")
        ≡ codes "OK\nOK\nOK\nOK ram 24576/32768 caps 4/5\nOK\nOK ram 20480/32768 caps 3/5\nOK\nOK ram 20480/32768 caps 3/5\n" }
    ensures both { window_replies_of 12288 4
        (codes "MAKE surface b\nRESIZE b 2\nSTAT\nRESIZE b 1\nRESIZE b 2\nNAME 0\nRESIZE b 0\nSTAT\n")
        ≡ codes "OK\nOK\nOK ram 12288/12288 caps 4/4\nERR OUT_OF_RAM\nOK\nOK surface b 2\nOK\nOK ram 8192/12288 caps 3/4\n" }
{}

/// States a computed example of refusals and of their order.
pub fn object_requests_are_refused_in_order()
    ensures makes { window_replies_of 32768 5
        (codes "MAKE pane a/b\nMAKE view a/b\nMAKE view a\nMAKE surface a\nMAKE pane a\nMAKE surface a/b\n")
        ≡ codes "ERR BAD_KIND\nERR BAD_NAME\nOK\nERR EXISTS\nERR BAD_KIND\nERR BAD_NAME\n" }
    ensures others { window_replies_of 32768 5
        (codes "RESIZE a 1\nDROP a\nCOUNT pane\nCOUNT view\nNAME 0\n")
        ≡ codes "ERR NOT_FOUND\nERR NOT_FOUND\nERR BAD_KIND\nOK 0\nERR END\n" }
    ensures sizes { window_replies_of 8192 3
        (codes "MAKE surface b\nRESIZE b 18446744073709551615\nRESIZE b 4611686018427386873\nRESIZE b 4611686018427386872\nRESIZE b 0\nMAKE view a\nRESIZE a 18446744073709551615\nNAME 1\n")
        ≡ codes "OK\nERR INVALID_SIZE\nERR INVALID_SIZE\nERR OUT_OF_RAM\nOK\nOK\nOK\nOK view a 18446744073709551615\n" }
    ensures bytes { window_replies_of 4096 2 (codes "MAKE view a\nCOUNT\n") ≡ codes "ERR OUT_OF_RAM\nOK 0\n" }
    ensures capability { window_replies_of 8192 2 (codes "MAKE view a\n") ≡ codes "ERR OUT_OF_CAPS\n" }
    ensures contents { window_replies_of 12288 3 (codes "MAKE surface b\nRESIZE b 1\nNAME 0\n")
        ≡ codes "OK\nERR OUT_OF_CAPS\nOK surface b 0\n" }
{}

/// States a computed example of names: objects are counted and named in the order of their creation, and a dropped object
/// closes up.
pub fn objects_are_named_in_order()
    ensures names { window_replies_of 32768 5
        (codes "MAKE view a\nMAKE surface b\nMAKE view c\nNAME 0\nNAME 1\nNAME 2\nNAME 3\nDROP a\nNAME 0\nNAME 1\nNAME 2\n")
        ≡ codes "OK\nOK\nOK\nOK view a 0\nOK surface b 0\nOK view c 0\nERR END\nOK\nOK surface b 0\nOK view c 0\nERR END\n" }
    ensures again { window_replies_of 32768 5
        (codes "MAKE view a\nMAKE surface b\nDROP a\nMAKE surface a\nNAME 1\nCOUNT\nCOUNT view\nCOUNT surface\n")
        ≡ codes "OK\nOK\nOK\nOK\nOK surface a 0\nOK 2\nOK 0\nOK 2\n" }
{}

/// States how object requests are parsed: a keyword, and arguments separated by exactly one space. Other texts, also those
/// of the file service, are no requests.
pub fn object_requests_are_read()
    ensures numbers { window_replies_of 32768 5 (codes "MAKE surface b\nRESIZE b 007\nNAME 00\n")
        ≡ codes "OK\nOK\nOK surface b 7\n" }
    ensures makes { window_replies_of 32768 5
        (codes "MAKE\nMAKE view\nMAKE view \nMAKE view a \nMAKE  a\nmake view a\nCOUNT\n")
        ≡ codes "ERR BAD_REQUEST\nERR BAD_REQUEST\nERR BAD_REQUEST\nERR BAD_REQUEST\nERR BAD_REQUEST\nERR BAD_REQUEST\nOK 0\n" }
    ensures others { window_replies_of 32768 5
        (codes "RESIZE a\nRESIZE a -1\nRESIZE a 18446744073709551616\nDROP\nCOUNT \nCOUNT view a\nNAME\nSTAT \n")
        ≡ codes "ERR BAD_REQUEST\nERR BAD_REQUEST\nERR BAD_REQUEST\nERR BAD_REQUEST\nERR BAD_REQUEST\nERR BAD_REQUEST\nERR BAD_REQUEST\nERR BAD_REQUEST\n" }
    ensures files { window_replies_of 32768 5
        (codes "PUT a 0 0 1\nGET a 0 0 1\nCREATE a\nWRITE a 0 00\nREAD a 0 1\nSIZE a\nCLEAR a\n")
        ≡ codes "ERR BAD_REQUEST\nERR BAD_REQUEST\nERR BAD_REQUEST\nERR BAD_REQUEST\nERR BAD_REQUEST\nERR BAD_REQUEST\nERR BAD_REQUEST\n" }
    ensures buffer { window_replies_of 40960 6
        (codes "BUFFER 0\nUNBUFFER\nBUFFER 5000\nBUFFER 1\nSTAT\nUNBUFFER\nSTAT\nBUFFER 36865\n")
        ≡ codes "ERR INVALID_SIZE\nERR NO_BUFFER\nOK cap \nERR EXISTS\nOK ram 12288/40960 caps 3/6\nOK\nOK ram 4096/40960 caps 2/6\nERR OUT_OF_RAM\n" }
{}
