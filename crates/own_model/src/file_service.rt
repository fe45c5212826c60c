//! Theorems on the file service, and computed examples.
ghost use Rattle.std.specs.Prelude.{◌≡◌, codes};
ghost use Rattle.own_model.specs.FileTheorems.{NoFilesAreFiles, RequestsKeepFiles, RequestsKeepCharges, RequestsKeepLimits, RequestsKeepWithinLimits, ErrorsComeInOrder, OthersAreServed, WrittenIsRead, OtherFilesStay};
ghost use Rattle.own_model.specs.FileRows.{replies_of};

/// States that a session's files are well-formed at first and after each request. Each file has a unique name and one
/// block for its node, and there are no other blocks.
pub fn files_stay_files()
    ensures first { NoFilesAreFiles }
    ensures request { RequestsKeepFiles }
{}

/// States that a request changes no limit and exceeds no limit, and that the account's use stays equal to the charges for
/// files.
pub fn files_are_charged()
    ensures charges { RequestsKeepCharges }
    ensures limits { RequestsKeepLimits }
    ensures within { RequestsKeepWithinLimits }
{}

/// States that a request fails with the first error of its line in the table of requests whose condition holds, and then
/// changes nothing. If no condition holds, the request succeeds.
pub fn file_errors_come_in_order()
    ensures order { ErrorsComeInOrder }
    ensures others { OthersAreServed }
{}

/// States that a read after a successful write returns the written bytes, and that a request for one file leaves all
/// other files unchanged.
pub fn written_files_are_read()
    ensures written { WrittenIsRead }
    ensures others { OtherFilesStay }
{}

/// States a computed example with each request and its refusals: a file is created, written, read, cleared and dropped. A
/// growing write needs the bytes of both contents at once. A node needs bytes first, and then a capability.
pub fn file_requests_are_served()
    ensures writes { replies_of 32768 5
        (codes "CREATE a\nSTAT\nWRITE a 0 68656c6c6f\nREAD a 0 9\nWRITE a 7 00\nWRITE a 5 21\nSIZE a\nSTAT\n")
        ≡ codes "OK\nOK ram 20480/32768 caps 3/5\nOK 5\nOK 68656c6c6f\nERR GAP\nOK 1\nOK 6\nOK ram 24576/32768 caps 4/5\n" }
    ensures reads { replies_of 32768 5
        (codes "CREATE a\nWRITE a 0 68656c6c6f21\nWRITE a 1 45\nREAD a 1 2\nREAD a 6 1\nREAD a 7 1\nREAD a 0 1025\n")
        ≡ codes "OK\nOK 6\nOK 1\nOK 456c\nOK\nERR GAP\nERR TOO_LONG\n" }
    ensures names { replies_of 32768 5
        (codes "CREATE a\nCREATE a\nCREATE a/b\nCREATE b\nNAME 0\nNAME 1\nNAME 2\nDROP a\nNAME 0\nNAME 1\nSIZE a\nFROB\n")
        ≡ codes "OK\nERR EXISTS\nERR BAD_NAME\nOK\nOK a\nOK b\nERR END\nOK\nOK b\nERR END\nERR NOT_FOUND\nERR BAD_REQUEST\n" }
    ensures clears { replies_of 32768 5
        (codes "CREATE a\nWRITE a 0 68656c6c6f21\nWRITE a 6\nCLEAR a\nSTAT\nSIZE a\nDROP a\nSTAT\n")
        ≡ codes "OK\nOK 6\nOK 0\nOK\nOK ram 20480/32768 caps 3/5\nOK 0\nOK\nOK ram 20480/32768 caps 3/5\n" }
    ensures both { replies_of 24576 4 (codes "CREATE a\nWRITE a 0 61\nWRITE a 1 62\nSIZE a\nSTAT\n")
        ≡ codes "OK\nOK 1\nERR OUT_OF_RAM\nOK 1\nOK ram 24576/24576 caps 4/4\n" }
    ensures bytes { replies_of 4096 2 (codes "CREATE a\n") ≡ codes "ERR OUT_OF_RAM\n" }
    ensures capability { replies_of 8192 2 (codes "CREATE a\n") ≡ codes "ERR OUT_OF_CAPS\n" }
    ensures least { replies_of 8192 3 (codes "CREATE a\nSTAT\n")
        ≡ codes "OK\nOK ram 8192/8192 caps 3/3\n" }
{}
