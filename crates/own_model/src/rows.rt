//! Computed examples on machine A: the exact output for each input.
ghost use Rattle.std.specs.Prelude.{◌≡◌, ◌++◌, [], ◌∷◌, codes, replicate, Some};
ghost use Rattle.own_model.specs.Call.{form_of};
ghost use Rattle.own_model.specs.Call.Call.{AttachAt, Detach, Peek, Poke, New, Del, Snew, Sdel, Reserve, Request, Yield, Open, Upgrade, CallSession, Close};
ghost use Rattle.own_model.specs.Rows.{transcript_of_a};
ghost use Rattle.own_model.specs.Theorems.{LongLinesAreNoCalls};

/// States that the report for an unused account shows its limits, and that no lines produce no output.
pub fn empty_budget_is_told()
    ensures limits { transcript_of_a (codes "alice quota\n") ≡ codes "alice: ram 0/65536 caps 0/16\n" }
    ensures nothing { transcript_of_a [] ≡ [] }
{}

/// States that each call of a component after its exit is answered `Gone`, and that other components are not affected.
pub fn exits_are_reported()
    ensures gone { transcript_of_a (codes "alice exit\nalice quota\nalice exit\nbob quota\n")
        ≡ codes "alice: ok\nalice: Gone\nalice: Gone\nbob: ram 0/65536 caps 0/16\n" }
    ensures refused { transcript_of_a (codes "log exit\nalice exit \nalice exit 1\n")
        ≡ codes "log: Not_a_script\n?: Bad_line\n?: Bad_line\n" }
{}

/// States that an empty line is a line, and that the last line needs no newline. A line that is too long is not a call.
pub fn lines_end_and_overflow()
    ensures { transcript_of_a (codes "alice quota\n\n" ++ replicate 8193 120 ++ codes "\nbob quota")
        ≡ codes "alice: ram 0/65536 caps 0/16\n?: Bad_line\n?: Bad_line\nbob: ram 0/65536 caps 0/16\n" }
{}

/// States that a line of 8192 bytes is parsed, and that a line of 8193 bytes is not a call.
pub fn longest_line_is_read()
    ensures longest { transcript_of_a (codes "alice alloc " ++ replicate 8180 48)
        ≡ codes "alice: Invalid_size\n" }
    ensures longer { transcript_of_a (codes "alice alloc " ++ replicate 8181 48)
        ≡ codes "?: Bad_line\n" }
{}

/// States that addresses and hexadecimal digits are parsed in either case, and that exactly one space separates
/// arguments.
pub fn arguments_are_read()
    ensures address { form_of (codes "detach 0xABCDEFabcdef0123")
        ≡ Some (Detach 0xabcdefabcdef0123) }
    ensures zeros { form_of (codes "peek 0x0000000000000010 0001") ≡ Some (Peek 16 1) }
    ensures at { form_of (codes "attach_at 7 0x10") ≡ Some (AttachAt 7 16) }
    ensures bytes { form_of (codes "poke 0x0 00fFa9") ≡ Some (Poke 0 (0 ∷ 255 ∷ 169 ∷ [])) }
    ensures heap_block { form_of (codes "new 0100") ≡ Some (New 100) }
    ensures heap_payload { form_of (codes "del 0x100000010") ≡ Some (Del 0x100000010) }
    ensures block { form_of (codes "snew 0256") ≡ Some (Snew 256) }
    ensures payload { form_of (codes "sdel 0x100000020") ≡ Some (Sdel 0x100000020) }
    ensures addresses { transcript_of_a
        (codes "alice detach 0X10\nalice detach 0x\nalice detach 10\nalice detach 0x1g\nalice detach 0x00000000000000001\n")
        ≡ codes "?: Bad_line\n?: Bad_line\n?: Bad_line\n?: Bad_line\n?: Bad_line\n" }
    ensures hex { transcript_of_a
        (codes "alice poke 0x0 a\nalice poke 0x0 ag\nalice poke 0x0 \nalice poke 0x0\n")
        ≡ codes "?: Bad_line\n?: Bad_line\n?: Bad_line\n?: Bad_line\n" }
    ensures spaces { transcript_of_a
        (codes "alice peek 0x0  1\nalice peek 0x0 1 \nalice peek 0x0\nalice capalloc \nalice attach\n")
        ≡ codes "?: Bad_line\n?: Bad_line\n?: Bad_line\n?: Bad_line\n?: Bad_line\n" }
{}

/// States how session calls are parsed. `open` has a service's name, the other calls a selector; the text after the next
/// space may be empty or absent.
pub fn session_calls_are_read()
    ensures arguments { form_of (codes "open LOG ram_quota=4K, cap_quota=2")
        ≡ Some (Open (codes "LOG") (codes "ram_quota=4K, cap_quota=2")) }
    ensures spaces { form_of (codes "open LOG  x ") ≡ Some (Open (codes "LOG") (codes " x ")) }
    ensures nothing { form_of (codes "open Nic") ≡ Some (Open (codes "Nic") []) }
    ensures empty { form_of (codes "open Nic ") ≡ Some (Open (codes "Nic") []) }
    ensures more { form_of (codes "upgrade 007 x") ≡ Some (Upgrade 7 (codes "x")) }
    ensures no_more { form_of (codes "upgrade 7") ≡ Some (Upgrade 7 []) }
    ensures request { form_of (codes "call 1 WRITE 6869")
        ≡ Some (CallSession 1 (codes "WRITE 6869")) }
    ensures no_request { form_of (codes "call 4294967297 ") ≡ Some (CallSession 4294967297 []) }
    ensures close { form_of (codes "close 0") ≡ Some (Close 0) }
    ensures services { transcript_of_a
        (codes "alice open\nalice open \nalice open a/b\nalice open  LOG\n")
        ≡ codes "?: Bad_line\n?: Bad_line\n?: Bad_line\n?: Bad_line\n" }
    ensures selectors { transcript_of_a
        (codes "alice upgrade\nalice upgrade x\nalice call \nalice call -1 WRITE\nalice close\nalice close 1 \n")
        ≡ codes "?: Bad_line\n?: Bad_line\n?: Bad_line\n?: Bad_line\n?: Bad_line\n?: Bad_line\n" }
{}

/// States that the argument of a request to or yield into a reserve is a text, which may be empty or absent.
pub fn reserve_calls_are_read()
    ensures reserve { form_of (codes "reserve") ≡ Some Reserve }
    ensures request { form_of (codes "request ram_quota=4K")
        ≡ Some (Request (codes "ram_quota=4K")) }
    ensures nothing { form_of (codes "request") ≡ Some (Request []) }
    ensures empty { form_of (codes "yield ") ≡ Some (Yield []) }
    ensures spaces { form_of (codes "yield  x ") ≡ Some (Yield (codes " x ")) }
    ensures others { transcript_of_a (codes "alice reserve \nalice reserve 1\nalice requests\n")
        ≡ codes "?: Bad_line\n?: Bad_line\n?: Bad_line\n" }
{}

/// States that yields add to a reserve and requests take from it, and that each is refused if the source does not cover
/// it. A label is parsed and ignored. Servers and exited components have no reserve.
pub fn reserves_are_moved()
    ensures yielded { transcript_of_a (codes "alice yield ram_quota=4K\nalice quota\n")
        ≡ codes "alice: ok\nalice: ram 0/61440 caps 0/16\n" }
    ensures caps { transcript_of_a (codes "alice yield cap_quota=2\nalice reserve\n")
        ≡ codes "alice: ok\nalice: ram 0 caps 2\n" }
    ensures requested { transcript_of_a
        (codes "alice yield ram_quota=1K\nalice request ram_quota=512\nalice reserve\n")
        ≡ codes "alice: ok\nalice: ok\nalice: ram 512 caps 0\n" }
    ensures lacking { transcript_of_a
        (codes "alice yield ram_quota=65537\nalice yield cap_quota=17\nbob request ram_quota=1\nbob request cap_quota=1\n")
        ≡ codes "alice: Out_of_ram\nalice: Out_of_caps\nbob: Out_of_ram\nbob: Out_of_caps\n" }
    ensures texts { transcript_of_a
        (codes "alice request\nalice request \nalice yield label=\"x\"\nalice yield label=x\nalice request ram_quota=x\nalice reserve\n")
        ≡ codes "alice: ok\nalice: ok\nalice: ok\nalice: Bad_args\nalice: Bad_args\nalice: ram 0 caps 0\n" }
    ensures away { transcript_of_a
        (codes "log reserve\nlog yield\nalice yield ram_quota=1\nalice exit\nalice reserve\nalice request ram_quota=1\n")
        ≡ codes "log: Not_a_script\nlog: Not_a_script\nalice: ok\nalice: ok\nalice: Gone\nalice: Gone\n" }
{}

/// States that unknown paths, servers, lines and numbers outside the grammar, and sizes that no budget covers are
/// refused.
pub fn lines_and_names_are_refused()
    ensures names { transcript_of_a (codes "carol quota\nlog quota\n")
        ≡ codes "carol: Unknown_component\nlog: Not_a_script\n" }
    ensures forms { transcript_of_a (codes "alice frob\nalice quota \nalice alloc 18446744073709551616\n")
        ≡ codes "?: Bad_line\n?: Bad_line\n?: Bad_line\n" }
    ensures sizes { transcript_of_a
        (codes "alice alloc 18446744073709551615\nalice alloc 18446744073709547520\n")
        ≡ codes "alice: Invalid_size\nalice: Out_of_ram\n" }
    ensures heap { transcript_of_a
        (codes "alice new 0\nalice new 18446744073709547521\nalice new 18446744073709547520\nalice new 65537\nalice new 65535\n")
        ≡ codes "alice: Invalid_size\nalice: Invalid_size\nalice: Out_of_ram\nalice: Out_of_ram\nalice: Out_of_ram\n" }
    ensures sliced { transcript_of_a
        (codes "alice snew 0\nalice snew 18446744073709547489\nalice snew 18446744073709547488\nalice snew 65505\n")
        ≡ codes "alice: Invalid_size\nalice: Invalid_size\nalice: Out_of_ram\nalice: Out_of_ram\n" }
{}

/// States that a line longer than 8192 bytes is not a call, for any bytes.
pub fn long_lines_are_no_calls()
    ensures { LongLinesAreNoCalls }
{}
