//! Theorems on the buffer that a client shares with its session of the file service, and computed examples.
ghost use Rattle.std.specs.Prelude.{◌≡◌, [], ◌∷◌, true, Some, codes};
ghost use Rattle.own_model.specs.BufferTheorems.{BufferErrorsComeInOrder, OtherBuffersAreServed, PutsAreWrites, GetsCopy, AllKeepFiles, AllKeepCharges, AllKeepLimits, AllKeepWithinLimits, AllFitBuffers};
ghost use Rattle.own_model.specs.BufferRows.{turns_of, none_read};
ghost use Rattle.own_model.specs.BufferRows.Turn.{Asks, Pokes, Peeks};
ghost use Rattle.own_model.specs.BufferService.{session_request};
ghost use Rattle.own_model.specs.BufferService.BufferRequest.{Make, GiveBack, Put, Get};
ghost use Rattle.own_model.specs.BufferService.SessionRequest.{OfFiles, OfBuffer};
ghost use Rattle.own_model.specs.FileText.FileRequest.{Create, Read, Write, Size, Stat};

/// States that a buffer request fails with the first error of its line in the table of requests whose condition holds,
/// and then changes nothing. If no condition holds, the request succeeds.
pub fn buffer_errors_come_in_order()
    ensures order { BufferErrorsComeInOrder }
    ensures others { OtherBuffersAreServed }
{}

/// States that `PUT` writes the buffer's bytes to a file. `GET` copies bytes of a file into the buffer and leaves all its
/// other bytes.
pub fn buffer_bytes_are_moved()
    ensures put { PutsAreWrites }
    ensures get { GetsCopy }
{}

/// States that each request of a session keeps the files well-formed, changes no limit and exceeds no limit. The
/// account's use stays equal to the charges for files and buffer. A new buffer has whole pages, and a buffer never
/// changes its length.
pub fn buffers_are_charged()
    ensures files { AllKeepFiles }
    ensures charges { AllKeepCharges }
    ensures limits { AllKeepLimits }
    ensures within { AllKeepWithinLimits }
    ensures long { AllFitBuffers }
{}

/// States how buffer requests are parsed: a keyword, and arguments separated by exactly one space.
pub fn buffer_requests_are_read()
    ensures make { session_request (codes "BUFFER 05000") ≡ Some (OfBuffer (Make 5000)) }
    ensures back { session_request (codes "UNBUFFER") ≡ Some (OfBuffer GiveBack) }
    ensures put { session_request (codes "PUT a 0 8190 2")
        ≡ Some (OfBuffer (Put (codes "a") 0 8190 2)) }
    ensures get { session_request (codes "GET a/b 1 18446744073709551615 0")
        ≡ Some (OfBuffer (Get (codes "a/b") 1 18446744073709551615 0)) }
    ensures file { session_request (codes "SIZE a") ≡ Some (OfFiles (Size (codes "a"))) }
    ensures none { none_read
        (codes "BUFFER\nBUFFER \nBUFFER 1 \nBUFFER -1\nBUFFER 18446744073709551616\nUNBUFFER \nUNBUFFER 1\nPUT\nPUT a\nPUT a 0 0\nPUT a 0 0 \nPUT a 0  0 1\nPUT  0 0 1\nPUT a 0 0 1 \nGET a 0 0\nGET a 0x0 0 1\nput a 0 0 1\nBUFFERS 1\n")
        ≡ true }
{}

/// States a computed example. A buffer is created, filled by its client, written to a file, read from a file and
/// released. Created again, it is zero. `GET` leaves buffer bytes for which the file has no bytes.
pub fn buffer_is_shared_with_its_session()
    ensures shared { turns_of 40960 6
        (Asks (OfBuffer (Make 0)) ∷ Asks (OfFiles (Create (codes "a")))
        ∷ Asks (OfBuffer (Put (codes "a") 0 0 1))
        ∷ Asks (OfBuffer (Make 5000)) ∷ Asks (OfBuffer (Make 1)) ∷ Asks (OfFiles Stat)
        ∷ Pokes 8190 (codes "hi")
        ∷ Asks (OfBuffer (Put (codes "a") 0 8190 2)) ∷ Asks (OfBuffer (Put (codes "a") 2 8190 3))
        ∷ Asks (OfFiles (Read (codes "a") 0 9))
        ∷ Asks (OfBuffer (Get (codes "a") 1 0 9)) ∷ Peeks 0 2 ∷ Asks (OfBuffer GiveBack)
        ∷ Asks (OfBuffer GiveBack)
        ∷ Asks (OfBuffer (Make 1)) ∷ Peeks 0 1 ∷ [])
        ≡ codes "ERR INVALID_SIZE\nOK\nERR NO_BUFFER\nOK cap \nERR EXISTS\nOK ram 28672/40960 caps 4/6\nOK 2\nERR BAD_RANGE\nOK 6869\nOK 1\n6900\nOK\nERR NO_BUFFER\nOK cap \n00\n" }
    ensures order { turns_of 24576 5
        (Asks (OfBuffer (Make 0)) ∷ Asks (OfBuffer (Make 1)) ∷ Asks (OfBuffer (Make 0))
        ∷ Asks (OfBuffer (Make 18446744073709547521)) ∷ Asks (OfBuffer (Make 18446744073709547520))
        ∷ Asks (OfFiles (Create (codes "a")))
        ∷ Asks (OfBuffer (Put (codes "b") 9 9 9999)) ∷ Asks (OfBuffer (Put (codes "a") 1 9 9999))
        ∷ Asks (OfBuffer (Put (codes "a") 0 9 9999))
        ∷ Asks (OfBuffer (Put (codes "a") 0 18446744073709551615 18446744073709551615))
        ∷ Asks (OfBuffer (Put (codes "a") 0 0 1))
        ∷ Asks (OfBuffer (Put (codes "a") 0 4096 0)) ∷ Asks (OfBuffer (Put (codes "a") 0 4097 0))
        ∷ Asks (OfFiles (Size (codes "a")))
        ∷ Asks (OfBuffer GiveBack) ∷ Asks (OfBuffer (Put (codes "a") 1 0 0))
        ∷ Asks (OfBuffer (Put (codes "a") 0 0 0)) ∷ [])
        ≡ codes "ERR INVALID_SIZE\nOK cap \nERR INVALID_SIZE\nERR INVALID_SIZE\nERR EXISTS\nOK\nERR NOT_FOUND\nERR GAP\nERR BAD_RANGE\nERR BAD_RANGE\nERR OUT_OF_RAM\nOK 0\nERR BAD_RANGE\nOK 0\nOK\nERR GAP\nERR NO_BUFFER\n" }
    ensures kept { turns_of 28672 6
        (Asks (OfFiles (Create (codes "a"))) ∷ Asks (OfFiles (Write (codes "a") 0 (codes "xyz")))
        ∷ Asks (OfBuffer (Make 1))
        ∷ Pokes 0 (codes "abcdef") ∷ Asks (OfBuffer (Get (codes "a") 1 1 4)) ∷ Peeks 0 6
        ∷ Asks (OfBuffer (Get (codes "a") 3 0 4096)) ∷ Peeks 0 6
        ∷ Asks (OfBuffer (Get (codes "a") 0 4093 4)) ∷ Asks (OfBuffer (Get (codes "a") 0 4094 2))
        ∷ Peeks 4092 4 ∷ [])
        ≡ codes "OK\nOK 3\nOK cap \nOK 2\n61797a646566\nOK 0\n61797a646566\nERR BAD_RANGE\nOK 2\n00007879\n" }
    ensures bytes { turns_of 8192 3
        (Asks (OfBuffer (Make 4097)) ∷ Asks (OfBuffer (Make 4096)) ∷ Asks (OfFiles Stat) ∷ [])
        ≡ codes "ERR OUT_OF_RAM\nOK cap \nOK ram 8192/8192 caps 3/3\n" }
    ensures capability { turns_of 8192 2 (Asks (OfBuffer (Make 1)) ∷ Asks (OfFiles Stat) ∷ [])
        ≡ codes "ERR OUT_OF_CAPS\nOK ram 4096/8192 caps 2/2\n" }
{}
