ghost use Rattle.std.specs.Prelude.{IfOk};
ghost use Rattle.outside_io.specs.Outside.{HasDistinctNames};

use mq_base::{NoMemory, NodeId, Seq, TableId, Text};
use outside_memory::{MemoryShelf, MemorySink};
use planner_cli::{FileRole, InputFault, Status, run};
use std::alloc::Global;
use std::process::Abort;
use std::test::Fail;

// The policy of the first row: O owns r(a INT, b TEXT), and U may see what the end says.
const FRONT: &str =
    "version = 1\nuser = \"U\"\nsubjects = [\"O\", \"U\"]\n[[table]]\nname = \"r\"\nowner = \"O\"\ncolumns = [{ name = \"a\", type = \"INT\" }, { name = \"b\", type = \"TEXT\" }]\n[[rule]]\ntable = \"r\"\nsubject = \"U\"\n";

const OWNED: &str =
    "version = 1\nuser = \"O\"\nsubjects = [\"O\", \"U\"]\n[[table]]\nname = \"r\"\nowner = \"O\"\ncolumns = [{ name = \"a\", type = \"INT\" }, { name = \"b\", type = \"TEXT\" }]\n";

const PLAIN_A: &str = "plain = [\"a\"]\nsealed = []\n";

const SEALED_B: &str = "plain = [\"a\"]\nsealed = [\"b\"]\n";

const PLAIN_BOTH: &str = "plain = [\"a\", \"b\"]\n";

// The prices of the first row.
const PRICES: &str =
    "version = 1\n[cpu]\nO = 1\nU = 2\n[net]\ndefault = 3\n[rows]\nr = 10\n[distinct]\na = 5\nb = 7\n";

const ROWS: &str = "a,b\n1,x\n-2,y\n1,z\n";

const SEED: &str = "0000000000000000000000000000000000000000000000000000000000000000";

pub(crate) const RUN: [&str; 6] = ["run", "policy", "prices", "query", SEED, "0"];

const REPORT: &str = "cost 480\nplan [[\"base\",\"r\"],[\"send\",\"U\"]]\nanswer\na\n-2\n1\n1\n";

// Two texts, one behind the other.
pub(crate) fn joined(alloc: Global, parts: (&str, &str)) -> Result<Text, NoMemory> {
    let mut whole = String::from_str(alloc, parts.0)?;
    whole.push_str(parts.1)?;
    Ok(Text::of(whole.into_bytes()))
}

// The files of a command: the policy is two texts, one behind the other.
fn files(
    alloc: Global,
    policy: (&str, &str),
    prices: &str,
    query: &[u8],
    table: &str,
) -> Result<Seq<(Text, Text)>, NoMemory>
    ensures { IfOk result HasDistinctNames }
{
    let mut files = Seq::new(alloc);
    files.push((Text::copied(alloc, b"policy")?, joined(alloc, policy)?))?;
    files.push((
        Text::copied(alloc, b"prices")?,
        Text::copied(alloc, prices.as_bytes())?,
    ))?;
    files.push((Text::copied(alloc, b"query")?, Text::copied(alloc, query)?))?;
    files.push((
        Text::copied(alloc, b"r.csv")?,
        Text::copied(alloc, table.as_bytes())?,
    ))?;
    Ok(files)
}

fn words(alloc: Global, given: &[&str]) -> Result<Vec<String>, NoMemory> {
    let mut words = Vec::new(alloc);
    for word in given {
        words.push(String::from_str(alloc, word)?)?;
    }
    Ok(words)
}

fn refused(file: FileRole, code: u16, at: u64, item: u64) -> Status {
    Status::Input(InputFault {
        file,
        code,
        at,
        item,
    })
}

// A command over these files, whose status is answered and whose report goes to the sink.
pub(crate) fn ran(
    alloc: Global,
    given: &[&str],
    files: Seq<(Text, Text)>,
    sink: &mut MemorySink,
) -> Result<Status, NoMemory>
    requires { HasDistinctNames files }
{
    let mut shelf = MemoryShelf::of(files, Seq::new(alloc));
    let given = words(alloc, given)?;
    Ok(run(alloc, given.as_slice(), &mut shelf, sink))
}

// A policy, a query, a table, the status of the command and what it writes.
type Row<'a> = ((&'a str, &'a str), &'a str, &'a str, Status, &'a str);

// Policies, queries and tables, each with its status and what is written.
const REPORTS: [Row; 6] = [
    (
        (FRONT, PLAIN_A),
        "select a from r",
        ROWS,
        Status::Done,
        REPORT,
    ),
    (
        (FRONT, PLAIN_A),
        "select a from r",
        "a,b\n",
        Status::Done,
        "cost 480\nplan [[\"base\",\"r\"],[\"send\",\"U\"]]\nanswer\na\n",
    ),
    (
        (FRONT, SEALED_B),
        "select b from r",
        ROWS,
        Status::NoPlan,
        "cost none\n",
    ),
    (
        (FRONT, PLAIN_BOTH),
        "SELECT b, a FROM r\n",
        ROWS,
        Status::Done,
        "cost 4140\nplan [[\"base\",\"r\"],[\"send\",\"U\"]]\nanswer\nb,a\nx,1\ny,-2\nz,1\n",
    ),
    (
        (FRONT, PLAIN_A),
        "sElEcT a , a fRoM r\r\n",
        ROWS,
        Status::Done,
        "cost 480\nplan [[\"base\",\"r\"],[\"send\",\"U\"]]\nanswer\na,a\n-2,-2\n1,1\n1,1\n",
    ),
    (
        (OWNED, ""),
        "select a, b from r",
        ROWS,
        Status::Done,
        "cost 0\nplan [[\"base\",\"r\"]]\nanswer\na,b\n-2,y\n1,x\n1,z\n",
    ),
];

fn check_rows(rt: &impl Abort, alloc: Global, rows: &[Row]) -> Result<(), NoMemory> {
    for (policy, query, table, want, written) in rows {
        let files = files(alloc, *policy, PRICES, query.as_bytes(), table)?;
        let mut sink = MemorySink::of(alloc, Seq::new(alloc));
        let status = ran(alloc, &RUN, files, &mut sink)?;
        assert_eq!(rt; status, *want, "{query}");
        assert!(rt; sink.written() == written.as_bytes(), "{query}");
    }
    Ok(())
}

#[test]
fn rows_give_their_reports(rt: HostRuntime) -> Result<(), Fail> {
    check_rows(&rt, rt.alloc(), &REPORTS)?;
    Ok(())
}

// Commands of which one file is refused first, and nothing is written.
const REFUSED_FILES: [Row; 4] = [
    (
        ("version =", ""),
        "",
        ROWS,
        Status::Input(InputFault {
            file: FileRole::Policy,
            code: 1,
            at: 0,
            item: 0,
        }),
        "",
    ),
    (
        (FRONT, "plain = [\"a\"]\nsealed = [\"b\", \"a\"]\n"),
        "select",
        ROWS,
        Status::Input(InputFault {
            file: FileRole::Policy,
            code: 9,
            at: 0,
            item: 2,
        }),
        "",
    ),
    (
        (FRONT, PLAIN_A),
        "select z from r",
        "a",
        Status::Input(InputFault {
            file: FileRole::Query,
            code: 13,
            at: 7,
            item: 0,
        }),
        "",
    ),
    (
        (FRONT, PLAIN_A),
        "select a from r",
        "a,b\n1,x\nz,y\n",
        Status::Input(InputFault {
            file: FileRole::Table(TableId(0)),
            code: 3,
            at: 2,
            item: 0,
        }),
        "",
    ),
];

#[test]
fn the_first_refused_file_decides(rt: HostRuntime) -> Result<(), Fail> {
    check_rows(&rt, rt.alloc(), &REFUSED_FILES)?;
    Ok(())
}

// Price files, each with the line of its refusal: the first row's prices with one thing changed, and an empty file.
const REFUSED_PRICES: [(&str, InputFault, &str); 5] = [
    (
        "version = 1\n\n[cpu]\nO = 1\nU = 2\n\n[distinct]\na = 5\nb = 7\n\n[[link]]\nfrom = \"O\"\nprice = 1\nto = \"O\"\n\n[net]\ndefault = 3\n\n[rows]\nr = 10\n",
        InputFault {
            file: FileRole::Prices,
            code: 6,
            at: 2,
            item: 0,
        },
        "input prices code 6 at 2 item 0",
    ),
    (
        "version = 1\n\n[cpu]\nO = 1\nU = 2\n\n[distinct]\na = 0\nb = 7\n\n[net]\ndefault = 3\n\n[rows]\nr = 10\n",
        InputFault {
            file: FileRole::Prices,
            code: 4,
            at: 4,
            item: 0,
        },
        "input prices code 4 at 4 item 0",
    ),
    (
        "version = 1\n\n[cpu]\nO = 1\n\n[distinct]\na = 5\nb = 7\n\n[net]\ndefault = 3\n\n[rows]\nr = 10\n",
        InputFault {
            file: FileRole::Prices,
            code: 5,
            at: 0,
            item: 1,
        },
        "input prices code 5 at 0 item 1",
    ),
    (
        "version = 1\n\n[cpu]\nO = 1\nU = 2\n\n[distinct]\na = 5\nb = 7\n\n[net]\ndefault = -1\n\n[rows]\nr = 10\n",
        InputFault {
            file: FileRole::Prices,
            code: 4,
            at: 1,
            item: 0,
        },
        "input prices code 4 at 1 item 0",
    ),
    (
        "",
        InputFault {
            file: FileRole::Prices,
            code: 2,
            at: 0,
            item: 0,
        },
        "input prices code 2 at 0 item 0",
    ),
];

// The status of a command with these files, and how much it writes.
fn ended(
    alloc: Global,
    policy: (&str, &str),
    prices: &str,
    query: &str,
) -> Result<(Status, usize), NoMemory> {
    let files = files(alloc, policy, prices, query.as_bytes(), ROWS)?;
    let mut sink = MemorySink::of(alloc, Seq::new(alloc));
    let status = ran(alloc, &RUN, files, &mut sink)?;
    Ok((status, sink.written().len()))
}

// The refusal comes before that of a query, and after that of a policy.
fn check_prices(
    rt: &impl Abort,
    alloc: Global,
    rows: &[(&str, InputFault, &str)],
) -> Result<(), Fail> {
    for (prices, fault, line) in rows {
        let want = Status::Input(*fault);
        let policy = (FRONT, PLAIN_A);
        assert_eq!(rt; want.to_string(alloc)?.as_str(), *line);
        assert_eq!(rt;
            ended(alloc, policy, prices, "select a from r")?,
            (want, 0),
            "{line}"
        );
        assert_eq!(rt;
            ended(alloc, policy, prices, "select")?,
            (want, 0),
            "{line}"
        );
        let first = refused(FileRole::Policy, 1, 0, 0);
        assert_eq!(rt;
            ended(alloc, ("version =", ""), prices, "select")?,
            (first, 0),
            "{line}"
        );
    }
    Ok(())
}

#[test]
fn prices_are_refused_between_policy_and_query(rt: HostRuntime) -> Result<(), Fail> {
    check_prices(&rt, rt.alloc(), &REFUSED_PRICES)
}

// The number of a row: of a thousand rows each number from -250 to 249 is that of two.
fn number_of(row: u32) -> i64 {
    i64::from(row.wrapping_mul(7) % 500) - 250
}

// A table in which each number from -250 to 249 stands twice, out of order.
fn thousand_rows(alloc: Global) -> Result<String, Fail> {
    let mut table = String::from_str(alloc, "a,b\n")?;
    for row in 0..1000_u32 {
        table.push_str(format!(in alloc; "{},x{row}\n", number_of(row))?.as_str())?;
    }
    Ok(table)
}

// The report on them.
fn thousand_sorted(alloc: Global) -> Result<String, Fail> {
    let mut report = String::from_str(
        alloc,
        "cost 480\nplan [[\"base\",\"r\"],[\"send\",\"U\"]]\nanswer\na\n",
    )?;
    for number in -250..250_i64 {
        report.push_str(format!(in alloc; "{number}\n{number}\n")?.as_str())?;
    }
    Ok(report)
}

#[test]
fn a_thousand_rows_are_sorted(rt: HostRuntime) -> Result<(), Fail> {
    let alloc = rt.alloc();
    let table = thousand_rows(alloc)?;
    let report = thousand_sorted(alloc)?;
    let row = (
        (FRONT, PLAIN_A),
        "select a from r",
        table.as_str(),
        Status::Done,
        report.as_str(),
    );
    check_rows(&rt, alloc, &[row])?;
    Ok(())
}

// O owns r(a INT, b TEXT), s(c INT, d INT, e TEXT) and t(f INT), and U may see nothing of them.
const THREE_TABLES: &str =
    "version = 1\nuser = \"U\"\nsubjects = [\"O\", \"U\"]\n[[table]]\nname = \"r\"\nowner = \"O\"\ncolumns = [{ name = \"a\", type = \"INT\" }, { name = \"b\", type = \"TEXT\" }]\n[[table]]\nname = \"s\"\nowner = \"O\"\ncolumns = [{ name = \"c\", type = \"INT\" }, { name = \"d\", type = \"INT\" }, { name = \"e\", type = \"TEXT\" }]\n[[table]]\nname = \"t\"\nowner = \"O\"\ncolumns = [{ name = \"f\", type = \"INT\" }]\n";

const THREE_PRICES: &str =
    "version = 1\n[cpu]\nO = 1\nU = 1\n[net]\ndefault = 1\n[rows]\nr = 1\ns = 1\nt = 1\n[distinct]\na = 1\nb = 1\nc = 1\nd = 1\ne = 1\nf = 1\n";

// The status of a command with this query.
fn status_of(alloc: Global, query: &[u8]) -> Result<Status, NoMemory> {
    let files = files(alloc, (THREE_TABLES, ""), THREE_PRICES, query, "a,b\n")?;
    let mut sink = MemorySink::of(alloc, Seq::new(alloc));
    ran(alloc, &RUN, files, &mut sink)
}

// Queries, one for each number of a refusal but 21, with the place.
const REFUSED: [(&str, u16, u64); 15] = [
    ("select a from r #", 1, 16),
    ("'", 2, 0),
    ("from", 3, 0),
    ("select a from r where a = 9223372036854775808", 4, 26),
    ("select a from z", 11, 14),
    ("select a from r, r", 12, 17),
    ("select z from r", 13, 7),
    ("select c from r", 14, 7),
    ("select a from r where b = 1", 15, 22),
    (
        "select a from r where b = 'xxxxxxxxxxxxxxxxxxxxxxxxxxxxxxxxxxxxxxxxxxxxxxxxxxxxxxxxxxxxxxxxxxxxxxxxxxxxxxxxxxxxxxxxxxxxxxxxxxxxxxxxxxxxxxxxxxxxxxxxx'",
        16,
        22,
    ),
    ("select a from r group by b", 17, 7),
    ("select sum(a) from r group by a", 18, 7),
    ("select min(b), max(b) from r group by a", 19, 15),
    ("select sum(a) from r", 20, 7),
    ("select a from r where a = a", 22, 22),
];

fn check_refused(
    rt: &impl Abort,
    alloc: Global,
    rows: &[(&str, u16, u64)],
) -> Result<(), NoMemory> {
    for (query, code, at) in rows {
        let status = status_of(alloc, query.as_bytes())?;
        assert_eq!(rt; status, refused(FileRole::Query, *code, *at, 0), "{query}");
    }
    Ok(())
}

// A query whose plan has 65 nodes.
fn large_query(alloc: Global) -> Result<String, NoMemory> {
    let mut query = String::from_str(alloc, "select a from r where a = 1")?;
    for _ in 1..64 {
        query.push_str(" and a = 1")?;
    }
    Ok(query)
}

#[test]
fn queries_are_refused_by_number(rt: HostRuntime) -> Result<(), Fail> {
    let alloc = rt.alloc();
    check_refused(&rt, alloc, &REFUSED)?;
    let query = large_query(alloc)?;
    let status = status_of(alloc, query.as_str().as_bytes())?;
    assert_eq!(rt; status, refused(FileRole::Query, 21, 0, 0));
    Ok(())
}

// Each query is of one table alone, and is answered.
const ONE_TABLE: [&str; 4] = [
    "SELECT a FROM r;",
    "sElEcT\ta\r\nFrOm r ; ",
    "select r . a from r",
    "select a, a, r.b from r",
];

fn check_no_plan(rt: &impl Abort, alloc: Global, rows: &[&str]) -> Result<(), NoMemory> {
    for query in rows {
        assert_eq!(rt;
            status_of(alloc, query.as_bytes())?,
            Status::NoPlan,
            "{query}"
        );
    }
    Ok(())
}

#[test]
fn queries_of_one_table_have_no_plan(rt: HostRuntime) -> Result<(), Fail> {
    check_no_plan(&rt, rt.alloc(), &ONE_TABLE)?;
    Ok(())
}

// Each row has bytes that are no text, and where their longest front of UTF-8 ends.
const NO_TEXTS: [(&[u8], u64); 4] = [
    (b"\xff", 0),
    (b"select a from r\xff", 15),
    (b"select '\xe2\x82", 8),
    (b"# \xc3\xa9\xa9", 4),
];

fn check_no_texts(rt: &impl Abort, alloc: Global, rows: &[(&[u8], u64)]) -> Result<(), NoMemory> {
    for (query, at) in rows {
        let status = status_of(alloc, query)?;
        assert_eq!(rt; status, refused(FileRole::Query, 1, *at, 0), "{at}");
    }
    Ok(())
}

#[test]
fn queries_are_text(rt: HostRuntime) -> Result<(), Fail> {
    check_no_texts(&rt, rt.alloc(), &NO_TEXTS)?;
    Ok(())
}

// Each row has the words and the status, over the first row's files.
const COMMANDS: [(&[&str], Status); 10] = [
    (&RUN, Status::Done),
    (
        &[
            "run",
            "policy",
            "prices",
            "query",
            SEED,
            "00000000000000000000",
        ],
        Status::Done,
    ),
    (&["run", "policy", "prices", "query"], Status::Words),
    (
        &["plan", "policy", "prices", "query", SEED, "0"],
        Status::Words,
    ),
    (
        &["run", "policy", "prices", "query", "00", "0"],
        Status::Words,
    ),
    (
        &["run", "policy", "prices", "query", SEED, ""],
        Status::Words,
    ),
    (
        &[
            "run",
            "policy",
            "prices",
            "query",
            SEED,
            "000000000000000000000",
        ],
        Status::Words,
    ),
    (&["--help"], Status::Words),
    (
        &["run", "nothing", "prices", "query", SEED, "0"],
        Status::ReadFault(FileRole::Policy),
    ),
    (
        &["run", "policy", "nothing", "query", SEED, "0"],
        Status::ReadFault(FileRole::Prices),
    ),
];

// The first row's files.
fn first_files(alloc: Global) -> Result<Seq<(Text, Text)>, NoMemory>
    ensures { IfOk result HasDistinctNames }
{
    files(alloc, (FRONT, PLAIN_A), PRICES, b"select a from r", ROWS)
}

fn check_commands(
    rt: &impl Abort,
    alloc: Global,
    rows: &[(&[&str], Status)],
) -> Result<(), NoMemory> {
    for (given, want) in rows {
        let mut sink = MemorySink::of(alloc, Seq::new(alloc));
        let status = ran(alloc, given, first_files(alloc)?, &mut sink)?;
        assert_eq!(rt; status, *want);
    }
    Ok(())
}

#[test]
fn words_have_a_command(rt: HostRuntime) -> Result<(), Fail> {
    check_commands(&rt, rt.alloc(), &COMMANDS)?;
    Ok(())
}

// The read that fails, and the file that the status names; nothing is written.
const READS: [(u64, FileRole, &str); 4] = [
    (1, FileRole::Policy, "read fault policy"),
    (2, FileRole::Prices, "read fault prices"),
    (3, FileRole::Query, "read fault query"),
    (4, FileRole::Table(TableId(0)), "read fault table 0"),
];

// The first row's command over a shelf of which one read fails.
fn read_failing(alloc: Global, call: u64, sink: &mut MemorySink) -> Result<Status, NoMemory> {
    let mut failing = Seq::new(alloc);
    failing.push(call)?;
    let mut shelf = MemoryShelf::of(first_files(alloc)?, failing);
    let given = words(alloc, &RUN)?;
    Ok(run(alloc, given.as_slice(), &mut shelf, sink))
}

fn check_reads(rt: &impl Abort, alloc: Global, rows: &[(u64, FileRole, &str)]) -> Result<(), Fail> {
    for (call, file, line) in rows {
        let mut sink = MemorySink::of(alloc, Seq::new(alloc));
        let status = read_failing(alloc, *call, &mut sink)?;
        assert_eq!(rt; status, Status::ReadFault(*file), "{line}");
        assert_eq!(rt; status.to_string(alloc)?.as_str(), *line);
        assert_eq!(rt; (status.number(), sink.written().len()), (4, 0), "{line}");
    }
    Ok(())
}

#[test]
fn failing_reads_name_their_file(rt: HostRuntime) -> Result<(), Fail> {
    check_reads(&rt, rt.alloc(), &READS)
}

// The put that fails, the bytes of the piece that are kept, and how much of the report is written.
const PUTS: [(u64, u64, usize); 6] = [
    (1, 0, 0),
    (1, 1, 1),
    (1, 3, 3),
    (1, 33, 33),
    (1, 34, 34),
    (1, 36, 36),
];

// A sink of which one call fails and keeps so many bytes.
fn sink_failing(alloc: Global, call: u64, kept: u64) -> Result<MemorySink, NoMemory> {
    let mut failing = Seq::new(alloc);
    failing.push((call, kept))?;
    Ok(MemorySink::of(alloc, failing))
}

fn check_puts(rt: &impl Abort, alloc: Global, rows: &[(u64, u64, usize)]) -> Result<(), NoMemory> {
    for (call, kept, written) in rows {
        let mut sink = sink_failing(alloc, *call, *kept)?;
        let status = ran(alloc, &RUN, first_files(alloc)?, &mut sink)?;
        assert_eq!(rt;
            (status, status.number()),
            (Status::WriteFault, 5),
            "{call} {kept}"
        );
        let front = REPORT.as_bytes().get(..*written);
        assert_eq!(rt; Some(sink.written()), front, "{call} {kept}");
    }
    Ok(())
}

#[test]
fn failing_puts_leave_a_front(rt: HostRuntime) -> Result<(), Fail> {
    check_puts(&rt, rt.alloc(), &PUTS)?;
    Ok(())
}

// Each status has its number and its line.
const STATUSES: [(Status, u8, &str); 11] = [
    (Status::Done, 0, "done"),
    (Status::NoPlan, 1, "no authorised plan"),
    (Status::Words, 2, "words"),
    (
        Status::Input(InputFault {
            file: FileRole::Table(TableId(7)),
            code: 2,
            at: 5,
            item: 1,
        }),
        3,
        "input table 7 code 2 at 5 item 1",
    ),
    (
        Status::Input(InputFault {
            file: FileRole::Prices,
            code: 0,
            at: 0,
            item: 0,
        }),
        3,
        "input prices code 0 at 0 item 0",
    ),
    (
        Status::ReadFault(FileRole::Cert),
        4,
        "read fault certificate",
    ),
    (Status::WriteFault, 5, "write fault"),
    (
        Status::TooManyStates(NodeId(63)),
        6,
        "too many states at node 63",
    ),
    (Status::CostRange, 7, "cost range"),
    (Status::NoMemory, 9, "no memory"),
    (Status::RowRange(NodeId(0)), 10, "row range at node 0"),
];

fn check_statuses(rt: &impl Abort, alloc: Global, rows: &[(Status, u8, &str)]) -> Result<(), Fail> {
    for (status, number, line) in rows {
        assert_eq!(rt; status.number(), *number, "{line}");
        assert_eq!(rt; status.to_string(alloc)?.as_str(), *line);
    }
    Ok(())
}

#[test]
fn statuses_have_their_lines(rt: HostRuntime) -> Result<(), Fail> {
    check_statuses(&rt, rt.alloc(), &STATUSES)
}
