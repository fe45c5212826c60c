//! The texts of the help.

/// The program's version.
pub(crate) const VERSION: &str = "1.0";

/// The purpose of the program.
pub(crate) const ABOUT: &str =
    "Simulates machines whose components pay for each other's services with quotas of RAM and capabilities.";

/// What a first scenario needs, and the exit statuses.
pub(crate) const FIRST_STEPS: &str =
    "A scenario has one call per line: NAME CALL. The built-in machine has the scripts
alice and bob, each with 64K of RAM and 16 capabilities, and the servers log and
files. A # begins a comment. A => begins the expected reply:

  alice alloc 4K => cap 1
  alice open File_system ram_quota=24K, cap_quota=4 => cap 2
  alice call 2 CREATE note => OK
  alice call 2 WRITE note 0 \"hello\" => OK 5
  alice quota

  printf 'alice alloc 4K => cap 1\\nalice quota\\n' | nethrywel run -

`nethrywel help calls` lists the calls, the requests of sessions and the expected
replies. `nethrywel help COMMAND` lists the options of a command.

Exit status:
  0    success, and nothing to report
  1    a failed read or write, too many lines, or no memory during a run
  2    a refused command line, file or start list; with --strict also a finding
  3    a reply that isn't as expected, a line that isn't understood, a failed test,
       a broken policy, coverage below a threshold, a denied request, or an unknown
       component
  4    `diff` found a difference
  141  the reader of the output closed it
docs/reference/ has the formats of scenarios, start lists, policies and output.";

/// The page on calls, requests and expected replies.
pub const CALLS: &str =
    "A line of a scenario is NAME CALL, or NAME CALL => REPLY with the expected reply.
NAME is the path of a script, as alice or acme/web.

Calls:
  alloc N            Allocate a dataspace of N bytes; reply: cap S
  free S             Free a dataspace
  attach S           Attach a dataspace at the lowest free address; reply: at A
  attach_at S A      Attach a dataspace at an address; reply: at A
  detach A           Detach the region that begins at A
  peek A LEN         Read LEN bytes, 1 to 1024; reply: data HEX
  poke A HEX         Write bytes: hexadecimal digits, or \"text\"
  capalloc           Allocate an RPC object, one capability; reply: cap S
  capfree S          Free an RPC object
  new N              Allocate a block of N bytes on the heap; reply: at A
  del A              Free a block of the heap
  snew N             Allocate a block of N bytes on the sliced heap; reply: at A
  sdel A             Free a block of the sliced heap
  open SERVICE ARGS  Open a session and donate quota to it; reply: cap S
  upgrade S ARGS     Donate more quota to a session
  call S REQUEST     Send a request to a session; reply: OK .., or ERR ..
  close S            Close a session; its donation returns
  quota              Print use and limits; reply: ram U/L caps U/L
  reserve            Print the reserve; reply: ram R caps C
  request ARGS       Move quota from the reserve to the account
  yield ARGS         Move unused quota from the account to the reserve
  exit               Exit; all quota returns to the parent init
N and LEN are bytes: 4096, 4K or 2M. S is a selector from a reply. A is an address:
0x10000000. ARGS is ram_quota=8K, cap_quota=3, and optionally label=\"..\".

Requests of a LOG session:
  WRITE HEX            Write bytes; each finished line is printed
Requests of a File_system session:
  CREATE F             Create an empty file
  WRITE F O HEX        Write bytes at offset O
  READ F O LEN         Read up to LEN bytes at offset O; reply: OK HEX
  SIZE F               Return the size; reply: OK n
  CLEAR F              Remove the contents
  DROP F               Remove the file
  NAME I               Return the name of file I in order of creation, from 0
  STAT                 Return use and limits of the session
  BUFFER N             Share a buffer of N bytes; reply: OK cap S
  UNBUFFER             Remove the buffer
  PUT F O B LEN        Write LEN bytes at B of the buffer at offset O of the file
  GET F O B LEN        Read up to LEN bytes at offset O into B of the buffer
HEX is hexadecimal digits, or \"text\" as the last argument of WRITE.
Requests of a session of a server that declares its service and its kinds:
  MAKE KIND F          Create an object of a kind, with 0 units
  RESIZE F N           Give the object N units
  DROP F               Remove the object
  COUNT, COUNT KIND    Return the number of objects, or of those of a kind
  NAME I               Return kind, name and units of object I, from 0
  STAT, BUFFER N, UNBUFFER   as of a File_system session

Expected replies:
  granted              any reply except a refusal and ERR ..
  refused              a refusal, or ERR ..
  refused!             a refusal, and the line is meant: its names may be unknown
  *                    any reply
  ram */65536 caps *   a * replaces an argument, or a number within one
  data \"hello\"         the bytes of a text
  cap $page            any selector; $page denotes it from then on
  => [alice] text      on a line of its own: the next call prints this log line

Other lines:
  # text               a comment
  @set NAME VALUE      $NAME denotes VALUE from then on
  @repeat N as I       repeat the lines up to @end N times; I counts from 0
  @end                 end the lines that @repeat repeats
  !NAME CALL           a line of the engine's grammar, byte for byte

Refusals:
  Bad_line Unknown_component Not_a_script Gone Bad_args Invalid_size Invalid_cap
  Invalid_session Out_of_ram Out_of_caps Too_many_chunks Too_many_regions
  Region_conflict Page_fault Service_denied Insufficient_ram_quota
  Insufficient_cap_quota
docs/reference/calls.md states for each call when it is refused.
";

pub(crate) const RUN: &str = "Run a scenario and report each reply that isn't as expected";

pub(crate) const RECORD: &str = "Write a scenario with each call's reply as its expected reply";

pub(crate) const ANEW: &str = "Replace expected replies too";

pub(crate) const IN_PLACE: &str = "Replace the file SCENARIO, by way of a new file in its folder";

pub(crate) const CHECK: &str = "Validate a start list, and check it against a policy";

pub(crate) const TREE: &str = "Show the components of a start list, their budgets and their routes";

pub(crate) const REACH: &str = "Show which scripts reach which servers, and with which labels";

pub(crate) const ROUTE: &str = "Resolve one session request, and show the rules that decide it";

pub(crate) const TRACE: &str = "Write a table (CSV) of all calls with use and limits after each";

pub(crate) const ACCOUNTS: &str = "Show use, peaks and limits of all accounts at the end";

pub(crate) const ALONE: &str =
    "Compare the replies to NAME, or with --all to each script, with a run of its lines alone";

pub(crate) const TEST: &str = "Run scenarios as tests and report the results (TAP 13)";

pub(crate) const DIFF: &str =
    "Compare two start lists: entries, budgets, who reaches whom, breaches of a policy, and replies";

pub(crate) const LEAST: &str = "Compute the sufficient and the minimum budgets of a scenario";

pub(crate) const HELP: &str = "Print help on calls, or on a command";

pub(crate) const TOPIC: &str = "calls, or a command; without it this page";

pub(crate) const AS_DONATED: &str = "Keep the donations of the scenario";

pub(crate) const LEAST_LIST: &str = "Write the start list with the minimum budgets";

pub(crate) const LEAST_SCENARIO: &str = "Write the scenario with the minimum donations";

pub(crate) const SAFE: &str =
    "Write safe budgets and donations, from which on all suffice, in place of the minimum";

pub(crate) const SCENARIO: &str = "The path of a scenario; - is standard input";

pub(crate) const LIST: &str = "The path of a start list in JSON; - is standard input";

pub(crate) const MACHINE: &str = "A start list; else NAME.json next to NAME.scenario";

pub(crate) const ONLY: &str = "Run the lines of this component alone";

pub(crate) const WITH_ACCOUNTS: &str = "Print all accounts after the last reply";

pub(crate) const NUMBERS: &str = "Print the line number before each reply";

pub(crate) const SET: &str =
    "Let NAME denote VALUE: $NAME in a scenario, ${NAME} in a start list; repeatable";

pub(crate) const COLOR: &str = "When to colour the output: auto (on a terminal), always or never";

pub(crate) const STRICT_LIST: &str = "Exit with status 2 if there is a finding";

pub(crate) const STRICT: &str =
    "Also test each start list that is used: it fails if there is a finding";

pub(crate) const POLICY: &str =
    "A policy: lines that state which scripts may reach which servers, and budgets";

pub(crate) const DOT: &str = "Write a graph for Graphviz instead of text";

pub(crate) const FROM: &str =
    "Show only scripts of this path, with each route; a last name of * matches all of that list";

pub(crate) const TO: &str = "Show only servers of this path, with each route";

pub(crate) const CLIENT: &str = "The path of the script that requests the session";

pub(crate) const SERVICE: &str = "The service: LOG, File_system or a declared one";

pub(crate) const ARGS: &str = "The session's arguments; without them the label is empty";

pub(crate) const NAME: &str = "The path of the component; with --all the scenario";

pub(crate) const ALL: &str = "Compare each script of the machine in turn";

pub(crate) const SUMMARY: &str = "With --all, print one line per script";

pub(crate) const JSON: &str = "Write JSON for programs, and diagnostics as JSON";

pub(crate) const JSON_ERRORS: &str = "Write diagnostics as JSON, one object per line";

pub(crate) const BEFORE: &str = "The start list before the change, in JSON";

pub(crate) const AFTER: &str = "The start list after the change, in JSON";

pub(crate) const COMPARED: &str = "A scenario whose replies are compared line by line";

pub(crate) const COMPARED_POLICY: &str =
    "A policy for AFTER; its breaches that BEFORE or AFTER alone has are reported";

pub(crate) const SCENARIO_AFTER: &str =
    "Run the scenario FILE on AFTER, and SCENARIO on BEFORE alone";

pub(crate) const PATHS: &str =
    "A scenario, a policy, or a folder with these: NAME.scenario runs on NAME.json if that exists, and NAME.json is checked against NAME.policy";

pub(crate) const OTHER_MACHINE: &str =
    "A start list in JSON for scenarios without their own, instead of the built-in machine";

pub(crate) const COVERAGE: &str =
    "Report which rules decide a session request, and which script requests which service";

pub(crate) const THRESHOLD: &str =
    "Report the coverage, and exit with status 3 if less than N percent of the rules and session requests are covered";

pub(crate) const FILTER: &str =
    "Run only the tests with TEXT in their paths; repeatable, and then one of the texts is enough";

pub(crate) const JUNIT: &str = "Write the results to FILE as JUnit's XML";
