//! What the program says of itself and of its commands.

/// What is said where a word isn't UTF-8, which `clap` never sees.
pub const NOT_UTF8: &str = "a word is not UTF-8\n\nFor more information, try '--help'.";

/// The program's version.
pub const VERSION: &str = "0.1.0";

pub(crate) const ABOUT: &str = "A payment ledger without consensus";

pub(crate) const CHECK_ABOUT: &str =
    "Reads frames on standard input and writes what a member would make of each";

pub(crate) const CHECK_HELP: &str = "\
Input: frames, one after the other, as members send them. Without --genesis there are four members, of
whom one may lie. Without --keys they are judged by member 1, or by member 0 of one alone, with the
test keys, which anyone can name: 30 zero bytes, then the lesser and the greater of the pair.

Output: a line for each frame, numbered from 1.
  K ok KIND from P number M owner A seq S value L   taken: the next frame from P
  K want from P number M                            P asks for the frame numbered M
  K refused C NAME                                  1 NotForMe, 2 UnknownSender, 3 UnknownOwner, 4 BadTag
  K refused C NAME next M                           5 Repeat, 6 Gap: M is the next number from P
  K fault C NAME                                    no frame; the last line

--values adds a line behind that of each frame but a WANT, whatever became of it:
    pays PAYEE AMOUNT ..   a pair for each entry of its value, and void for one that moves nothing

Status: 0 at the input's end, 1 after a fault, 2 for words or a file that can't be read, 3 where memory,
a read or a write fails, or after 1,000,000 reads.

Example: payd check < examples/frames.bin";

pub(crate) const DESK_ABOUT: &str =
    "Reads commands on standard input and answers each, for an account's owner";

pub(crate) const DESK_HELP: &str = "\
Input: a command a line, words with one blank between them and decimal numbers, 1,024 bytes at
most.
  PAY ID TO AMOUNT   pays an account, once under this ID: the same line again has the same answer
  PAYS ID TO AMOUNT ..
                     the same, of 1 to 32 payments in one value
  NOTE ID TEXT       says this in the own name, which all in the group can read, once under this ID
  BALANCE A          an account's balance
  STATE OWNER SEQ    what became of the payment under a number of an account
  STATEMENT A        all that settled of an account, and what was paid to it
  ENTRIES A E        what settled of an account from entry E on, 1,000 entries at most
  WAITING A          what an account asked for or listed and isn't settled, 1,000 entries at most
  FRONT              how many entries of each account are settled

Output: the answer to each line.
  asked ID seq S                  the value has the number S
  balance A B
  state OWNER SEQ WORD            unknown, asked, waiting or settled
  out SEQ to PAYEE AMOUNT, void SEQ, in OWNER SEQ AMOUNT, end A balance B
  entry A E seq S WHAT, end A E   to PAYEE AMOUNT, void, or note TEXT
  waiting A E seq S WHAT, end A short B
  front F0 F1 ..
  refused C NAME                  1 BadLine, 2 NoAccount, 3 ZeroOrSelf, 4 IdUsed, 5 Spent, 0 Memory

The member meets no peer: a payment settles only where the member is the only one of its group.

Status: 0 at the input's end, 2 for words or a file that can't be read, 3 where memory, a read or a
write fails, or after 1,000,000 reads.

Example: payd desk --genesis examples/genesis.json --keys examples/keys-0.json < examples/desk.txt";

pub(crate) const NODE_ABOUT: &str =
    "Answers an account's owner as desk does, over a member that meets its peers on this machine";

pub(crate) const NODE_HELP: &str = "\
Input and output: as those of payd desk. At the end of the input the node stops, and its export is one
line more, which payd audit reads.

Without --data the member lives in memory alone: what ends the node before its input does, as any signal,
loses its account.
  --data FOLDER   the member's history is on the disk there, in a log, before anything of it leaves the
                  node. Ended in whatever way, the node is started again and goes on: no payment is made
                  twice, and a PAY given again has its old answer. One node has a log at a time, and
                  payd export writes its export. A folder without a log is refused but with
  --new           makes the member, its log, and the folder where there is none; for its first start.
                  A node with a folder pays once a quorum of members claimed to know no more of it
  --stay          at the end of the lines a node with a folder goes on until it is killed

A node with a folder also listens on the Unix socket FOLDER/desk, which only the owner may open, for
16 clients at once: each sends lines and has their answers in order, as payd send. All use one desk: an
ID is one payment, whoever gives it. A client that is silent for 600 seconds is closed, and so is one
that takes no answer for as long.
  --socket PATH   the node listens there in place of FOLDER/desk, also without a folder
The socket's name has 101 bytes at most.

A node with a folder writes its figures to FOLDER/status.prom, in Prometheus' text format, every 5 seconds,
and removes the file at its end. It appends to FOLDER/times when it saw entries settle, and has copies of
the files of --genesis and --keys there, group.json and keys.json.

The member listens on its own port of 127.0.0.1 and dials those of all others, a thousand times some
10 milliseconds apart and again after each connection that brought a frame. So a group's nodes are
started within a few seconds, or with --dials:
  --dials COUNT    a peer is given up after so many dials in a row that brought no frame
  --dials always   no peer is given up
The pauses then grow from 10 milliseconds to a second, each twice the one before. Ports below those that
the system gives out by itself, mostly 32768 and more, are best.

Standard error has a line that says which member of which group this is, one with its folder's absolute
path, and one when a peer is met, is lost, is given up, lied, or when a frame in its name doesn't open:
payd: peer 2 met.

Of each peer as many as 256 frames are asked for before the first of them is there, or with --ahead:
  --ahead COUNT    so many, from 1 to 1024: more over a longer way; with 1 each takes it to and fro

Status: 0 at the input's end, 1 where what was told isn't consistent with the member's history, 2 for words
or a file that can't be read, or a folder that isn't this member's, 3 where memory, a read, a write, the
own port or the socket fails, another node has the log, or after 1,000,000 reads, 4 where the disk under
the folder failed or is full, or the group knows more of the member than its log.

Example: payd node --genesis examples/genesis.json --keys examples/keys-0.json --ports examples/ports.json";

pub(crate) const EXPORT_ABOUT: &str =
    "Writes the export of a member that a node keeps in a folder, also while it runs";

pub(crate) const EXPORT_HELP: &str = "\
Input: the folder that payd node --data was given, and its files of genesis and keys. Nothing in it changes,
and a node may have it: then the export is of the moment, as standard error says.

Output: the export as one line, which payd audit reads.

Status: 0 where it is written, 2 for words or a file that can't be read, or a folder that isn't this
member's, 3 where memory, a read or a write fails, 4 where the disk under the folder does.

Example: payd export --genesis group.json --keys keys.json --data member-0";

pub(crate) const AUDIT_ABOUT: &str =
    "Reads exports of members and says what is wrong with them, if anything is";

pub(crate) const AUDIT_HELP: &str = "\
Input: a file of JSON for each export.

Output: one line, in which exports are named by their places from 0: the first of these that there is.
  clean
  1 genesis X                 X begins otherwise than export 0
  2 front X account A         it isn't what the lists of X allow
  3 balance X account A       it isn't that at the front of X
  4 fork X Y owner A seq S    X and Y have different values there

--all adds a line for each thing that is wrong, and all exports are in memory at once:
  1 genesis in FILE                                   it is left out of what follows
  2 front account A says S right R in FILE            export by export
  3 balance account A says S right R in FILE          at the right front
  4 fork owner A seq S ENTRIES exports K in FILE..    each value there, and the K exports that have it

Status: 0 where it is clean, 1 where it isn't, 2 for words or a file that can't be read, 3 where memory or
the write fails.

Example: payd audit member-0.json member-1.json";

pub(crate) const BOOK_ABOUT: &str =
    "Reads exports of a group's members and writes what more of them have than may lie";

pub(crate) const BOOK_HELP: &str = "\
Input: a file of JSON for each export, of different members and more of them than may lie: f + 1 or more.

Output: the book of the group. Its list of an account is the longest list with which at least f + 1 of the
exports begin: where f members lie at most, a correct member has it. Exports are named by their places
from 0.
  account A settled E balance B                          for each account
  waits account A entry E seq S to PAYEE amount AMOUNT   what isn't settled, the first of an account
                                                         with short D: what its balance lacks
  waits account A entry E seq S void                     one that moves nothing
  differs X account A seq S                              X has another value there than the book
  beyond X account A seq S                               X goes on there, where the book ends
  total T                                                all balances
Or one line, where there is no book: the first of these that there is.
  1 genesis X                 X begins otherwise than export 0
  5 twice X Y                 X and Y are of one member
  6 few K                     K exports are no more than members may lie
  7 split account A seq S     two values there have f + 1 exports each: more than f members lie

  --genesis   in place of the lines the genesis of the next group: each account opens with its balance
  --export    in place of the lines the book as an export of the first one's member

Status: 0 for a book, 1 where there is none, 2 for words or a file that can't be read, 3 where memory or
the write fails.

Example: payd book member-0.json member-1.json member-2.json";

pub(crate) const STATEMENT_ABOUT: &str =
    "Reads an export of a member and writes the statement of an account, or of each";

pub(crate) const STATEMENT_HELP: &str = "\
Input: a file of JSON with an export. Without an account there are the statements of all, in order.

Output: what a desk answers to STATEMENT.
  out SEQ to PAYEE AMOUNT, void SEQ, in OWNER SEQ AMOUNT, end A balance B

It follows from what the accounts began with and from their lists alone. Whether the front and the
balances of the export are right too is what payd audit says.

Status: 0 where it is written, 2 for words or a file that can't be read, or an account that isn't there,
3 where memory or the write fails.

Example: payd statement examples/export-0.json 3";

pub(crate) const JOURNAL_ABOUT: &str =
    "Reads an export of a member and writes what settled as plain-text accounting";

pub(crate) const JOURNAL_HELP: &str = "\
Input: a file of JSON with an export. Each export of a group tells of all its accounts, so one is enough.

Output: a journal that hledger and ledger read. The first transaction has what each account opened with,
against equity:opening; then each settled payment is one, account by account and in the order of the
payer's statement. Its code is the payer's account and the entry's number there. A settled entry that
moves nothing is a comment. Amounts have no unit, as those of the payments have none.

  --date YYYY-MM-DD   the date of all transactions, from the year 1400 on: an export has no dates, and
                      without the option it is today's in UTC

It follows from what the accounts began with and from their lists alone, as payd statement does.

Status: 0 where it is written, 2 for words or a file that can't be read, or a word that is no date, 3
where memory, the clock or the write fails.

Example: payd journal examples/export-0.json --date 2026-01-31";

pub(crate) const SIM_ABOUT: &str =
    "Plays the script of a group's day on standard input, and writes what each command prints";

pub(crate) const SIM_HELP: &str = "\
Input: a first line that says the group, as JSON with members, faults, opening and liars, and then a
command a line, 4,096 bytes at most. An empty line is none.
  ask I PAYEE AMOUNT                   member I is asked to pay
  asks I PAYEE AMOUNT ..               the same, of 1 to 32 payments in one value
  bring FROM TO M                      frame M of FROM's list is brought to TO
  lie FROM TO M KIND OWNER SEQ VALUE   that frame is tagged and brought to TO; M may be next
  raw TO HEX                           bytes are brought to TO; - is none
  all                                  all that is untaken between correct members is brought
  show                                 the book of each correct member

Output: what came of each command.
  asked I seq S
  took, took echo ready deliver settle K, wanted P M, ignored, absent
  refused WHERE C NAME                 a member, a frame or a link refuses it
  brought COUNT, converged             converged: each took all that the others sent
  member I fronts F0 F1 .. balances B0 B1 ..
  forged K, bad line L, limit          the last line of a run that ends there

Status: 0 at the input's end, 1 after a forged frame, 2 for words or a line that can't be read, 3 where
memory, a read or a write fails, after 1,000,000 reads, or before the 1,000,001st event.

Example: payd sim < examples/honest-day.txt";
