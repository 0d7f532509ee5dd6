//! Queries over several owners' tables: what the least plan costs, which it is, and what comes out.
ghost use Rattle.std.specs.Prelude.{IfOk};
ghost use Rattle.outside_io.specs.Outside.{HasDistinctNames};

use crate::tests::{RUN, joined, ran};
use mq_base::{NoMemory, NodeId, Seq, Text};
use outside_memory::MemorySink;
use planner_cli::Status;
use std::alloc::Global;
use std::process::Abort;
use std::test::Fail;

// A owns r(a INT, b INT) and B owns s(c INT, d INT); the user U may see all of them, and the end says what X may see.
const TWO_OWNERS: &str =
    "version = 1\nuser = \"U\"\nsubjects = [\"A\", \"B\", \"X\", \"U\"]\n[[table]]\nname = \"r\"\nowner = \"A\"\ncolumns = [{ name = \"a\", type = \"INT\" }, { name = \"b\", type = \"INT\" }]\n[[table]]\nname = \"s\"\nowner = \"B\"\ncolumns = [{ name = \"c\", type = \"INT\" }, { name = \"d\", type = \"INT\" }]\n[[rule]]\ntable = \"r\"\nsubject = \"U\"\nplain = [\"a\", \"b\"]\n[[rule]]\ntable = \"s\"\nsubject = \"U\"\nplain = [\"c\", \"d\"]\n";

const ALL_SEALED: &str =
    "[[rule]]\ntable = \"r\"\nsubject = \"X\"\nsealed = [\"a\", \"b\"]\n[[rule]]\ntable = \"s\"\nsubject = \"X\"\nsealed = [\"c\", \"d\"]\n";

const KEY_SEALED: &str =
    "[[rule]]\ntable = \"r\"\nsubject = \"X\"\nplain = [\"a\", \"b\"]\n[[rule]]\ntable = \"s\"\nsubject = \"X\"\nplain = [\"d\"]\nsealed = [\"c\"]\n";

// The same prices, with work at U dear, and cheap.
const DEAR_USER: &str =
    "version = 1\n[cpu]\nA = 1\nB = 1\nX = 1\nU = 200\n[net]\ndefault = 1\n[rows]\nr = 10\ns = 20\n[distinct]\na = 10\nb = 10\nc = 20\nd = 20\n";

const CHEAP_USER: &str =
    "version = 1\n[cpu]\nA = 1\nB = 1\nX = 1\nU = 1\n[net]\ndefault = 1\n[rows]\nr = 10\ns = 20\n[distinct]\na = 10\nb = 10\nc = 20\nd = 20\n";

const R_ROWS: &str = "a,b\n1,10\n2,20\n2,21\n";

const S_ROWS: &str = "c,d\n2,7\n3,8\n2,9\n";

// O owns r(a INT, b TEXT), and the end says what others may see.
const ONE_OWNER: &str =
    "version = 1\nuser = \"U\"\nsubjects = [\"O\", \"X\", \"U\"]\n[[table]]\nname = \"r\"\nowner = \"O\"\ncolumns = [{ name = \"a\", type = \"INT\" }, { name = \"b\", type = \"TEXT\" }]\n[[rule]]\ntable = \"r\"\nsubject = \"U\"\nplain = [\"a\"]\n";

const X_SEES_A: &str = "[[rule]]\ntable = \"r\"\nsubject = \"X\"\nplain = [\"a\"]\n";

// Sending from O to U is dear, by X it is cheap.
const RELAYED: &str =
    "version = 1\n[cpu]\nO = 1\nX = 1\nU = 1\n[net]\ndefault = 100\n[rows]\nr = 10\n[distinct]\na = 5\nb = 7\n[[link]]\nfrom = \"O\"\nto = \"X\"\nprice = 1\n[[link]]\nfrom = \"X\"\nto = \"U\"\nprice = 1\n";

// The one plan costs just less than the largest cost, just more, and far more.
const NEAR_THE_LIMIT: &str =
    "version = 1\n[cpu]\nO = 1\nX = 1\nU = 2\n[net]\ndefault = 4611686018427387903\n[rows]\nr = 4611686018427387904\n[distinct]\na = 5\nb = 7\n";

const PAST_THE_LIMIT: &str =
    "version = 1\n[cpu]\nO = 1\nX = 1\nU = 2\n[net]\ndefault = 4611686018427387904\n[rows]\nr = 4611686018427387904\n[distinct]\na = 5\nb = 7\n";

const FAR_PAST_THE_LIMIT: &str =
    "version = 1\n[cpu]\nO = 1\nX = 1\nU = 2\n[net]\ndefault = 9223372036854775807\n[rows]\nr = 9223372036854775807\n[distinct]\na = 5\nb = 7\n";

const FREE_OF_CHARGE: &str =
    "version = 1\n[cpu]\nO = 0\nX = 0\nU = 0\n[net]\ndefault = 0\n[rows]\nr = 10\n[distinct]\na = 5\nb = 7\n";

const LETTERS: &str = "a,b\n1,x\n-2,y\n1,z\n";

// O owns r(a TEXT, b INT); X may see the sums' column sealed alone, and U all.
const SUMS: &str =
    "version = 1\nuser = \"U\"\nsubjects = [\"O\", \"X\", \"U\"]\n[[table]]\nname = \"r\"\nowner = \"O\"\ncolumns = [{ name = \"a\", type = \"TEXT\" }, { name = \"b\", type = \"INT\" }]\n[[rule]]\ntable = \"r\"\nsubject = \"X\"\nplain = [\"a\"]\nsealed = [\"b\"]\n[[rule]]\ntable = \"r\"\nsubject = \"U\"\nplain = [\"a\", \"b\"]\n";

const SUM_PRICES: &str =
    "version = 1\n[cpu]\nO = 10\nX = 1\nU = 100\n[net]\ndefault = 1\n[rows]\nr = 100\n[distinct]\na = 5\nb = 50\n";

const LARGE_NUMBERS: &str = "a,b\nx,9223372036854775807\ny,-5\nx,1\n";

// H has patients and I has what the insured pay; Y may join and group, with the numbers of patients sealed.
const HOSPITAL: &str =
    "version = 1\nuser = \"U\"\nsubjects = [\"H\", \"I\", \"U\", \"X\", \"Y\", \"Z\"]\n[[table]]\nname = \"Hosp\"\nowner = \"H\"\ncolumns = [{ name = \"S\", type = \"INT\" }, { name = \"B\", type = \"INT\" }, { name = \"D\", type = \"TEXT\" }, { name = \"T\", type = \"TEXT\" }]\n[[table]]\nname = \"Ins\"\nowner = \"I\"\ncolumns = [{ name = \"C\", type = \"INT\" }, { name = \"P\", type = \"INT\" }]\n[[rule]]\ntable = \"Hosp\"\nsubject = \"I\"\nplain = [\"B\"]\nsealed = [\"S\", \"D\", \"T\"]\n[[rule]]\ntable = \"Hosp\"\nsubject = \"U\"\nplain = [\"S\", \"D\", \"T\"]\n[[rule]]\ntable = \"Hosp\"\nsubject = \"X\"\nplain = [\"D\", \"T\"]\nsealed = [\"S\"]\n[[rule]]\ntable = \"Hosp\"\nsubject = \"Y\"\nplain = [\"B\", \"D\", \"T\"]\nsealed = [\"S\"]\n[[rule]]\ntable = \"Hosp\"\nsubject = \"Z\"\nplain = [\"S\", \"T\"]\nsealed = [\"D\"]\n[[rule]]\ntable = \"Hosp\"\nsubject = \"any\"\nplain = [\"D\", \"T\"]\n";

const INSURANCE: &str =
    "[[rule]]\ntable = \"Ins\"\nsubject = \"H\"\nplain = [\"C\"]\nsealed = [\"P\"]\n[[rule]]\ntable = \"Ins\"\nsubject = \"U\"\nplain = [\"C\", \"P\"]\n[[rule]]\ntable = \"Ins\"\nsubject = \"X\"\nsealed = [\"C\", \"P\"]\n[[rule]]\ntable = \"Ins\"\nsubject = \"Y\"\nplain = [\"P\"]\nsealed = [\"C\"]\n[[rule]]\ntable = \"Ins\"\nsubject = \"Z\"\nplain = [\"C\"]\nsealed = [\"P\"]\n[[rule]]\ntable = \"Ins\"\nsubject = \"any\"\nplain = [\"P\"]\n";

const HOSPITAL_PRICES: &str =
    "version = 1\n[cpu]\nH = 10\nI = 10\nU = 100\nX = 1\nY = 2\nZ = 1\n[net]\ndefault = 1\n[rows]\nHosp = 1000\nIns = 5000\n[distinct]\nS = 1000\nB = 100\nD = 50\nT = 20\nC = 5000\nP = 1000\n";

const STROKES: &str =
    "SELECT T, SUM(P) FROM Hosp JOIN Ins ON S = C WHERE D = 'stroke' GROUP BY T HAVING SUM(P) > 100";

const PATIENTS: &str =
    "S,B,D,T\n1,1970,stroke,tpa\n2,1981,stroke,surgery\n3,1960,flu,rest\n4,1955,stroke,tpa\n";

const PAYMENTS: &str = "C,P\n1,80\n2,100\n4,70\n9,500\n";

// What a command reads: the policy is two texts, one behind the other.
struct Given<'a> {
    policy: (&'a str, &'a str),
    prices: &'a str,
    query: &'a str,
    tables: (&'a str, &'a str),
}

// The files of a command. The two tables stand under either pair of names.
fn files(alloc: Global, given: &Given<'_>) -> Result<Seq<(Text, Text)>, NoMemory>
    ensures { IfOk result HasDistinctNames }
{
    let first = given.tables.0.as_bytes();
    let second = given.tables.1.as_bytes();
    let mut files = Seq::new(alloc);
    files.push((
        Text::copied(alloc, b"policy")?,
        joined(alloc, given.policy)?,
    ))?;
    files.push((
        Text::copied(alloc, b"prices")?,
        Text::copied(alloc, given.prices.as_bytes())?,
    ))?;
    files.push((
        Text::copied(alloc, b"query")?,
        Text::copied(alloc, given.query.as_bytes())?,
    ))?;
    files.push((Text::copied(alloc, b"r.csv")?, Text::copied(alloc, first)?))?;
    files.push((Text::copied(alloc, b"s.csv")?, Text::copied(alloc, second)?))?;
    files.push((
        Text::copied(alloc, b"Hosp.csv")?,
        Text::copied(alloc, first)?,
    ))?;
    files.push((
        Text::copied(alloc, b"Ins.csv")?,
        Text::copied(alloc, second)?,
    ))?;
    Ok(files)
}

// What a command gives: its status, and a report of a cost line, a plan line where one plan alone is least, and an answer.
struct Row<'a> {
    given: Given<'a>,
    status: Status,
    cost: &'a str,
    plan: Option<&'a str>,
    answer: &'a str,
}

// Queries whose least plans were worked out by hand.
const ROWS: [Row; 12] = [
    Row {
        given: Given {
            policy: (HOSPITAL, INSURANCE),
            prices: HOSPITAL_PRICES,
            query: STROKES,
            tables: (PATIENTS, PAYMENTS),
        },
        status: Status::Done,
        cost: "cost 387126\n",
        plan: Some(
            "plan [[\"base\",\"Hosp\"],[\"un\",1],[\"enc\",\"S\"],[\"send\",\"Y\"],[\"base\",\"Ins\"],[\"enc\",\"C\"],[\"send\",\"Y\"],[\"bin\",3],[\"un\",4],[\"un\",5],[\"send\",\"U\"]]\n",
        ),
        answer: "answer\nT,P\ntpa,150\n",
    },
    Row {
        given: Given {
            policy: (TWO_OWNERS, ALL_SEALED),
            prices: DEAR_USER,
            query: "select b, d from r, s where a = c",
            tables: (R_ROWS, S_ROWS),
        },
        status: Status::Done,
        cost: "cost 6080\n",
        plan: None,
        answer: "answer\nb,d\n20,7\n20,9\n21,7\n21,9\n",
    },
    Row {
        given: Given {
            policy: (TWO_OWNERS, ALL_SEALED),
            prices: DEAR_USER,
            query: "select b, d from r, s where a = c and a >= 2",
            tables: (R_ROWS, S_ROWS),
        },
        status: Status::Done,
        cost: "cost 5250\n",
        plan: None,
        answer: "answer\nb,d\n20,7\n20,9\n21,7\n21,9\n",
    },
    Row {
        given: Given {
            policy: (TWO_OWNERS, KEY_SEALED),
            prices: CHEAP_USER,
            query: "select b, d from r, s where a = c",
            tables: (R_ROWS, S_ROWS),
        },
        status: Status::Done,
        cost: "cost 1010\n",
        plan: Some(
            "plan [[\"base\",\"r\"],[\"send\",\"U\"],[\"base\",\"s\"],[\"send\",\"U\"],[\"bin\",2],[\"un\",3]]\n",
        ),
        answer: "answer\nb,d\n20,7\n20,9\n21,7\n21,9\n",
    },
    Row {
        given: Given {
            policy: (TWO_OWNERS, KEY_SEALED),
            prices: CHEAP_USER,
            query: "select b from r, s",
            tables: (R_ROWS, S_ROWS),
        },
        status: Status::Done,
        cost: "cost 360\n",
        plan: None,
        answer: "answer\nb\n10\n10\n10\n20\n20\n20\n21\n21\n21\n",
    },
    Row {
        given: Given {
            policy: (ONE_OWNER, X_SEES_A),
            prices: RELAYED,
            query: "select a from r",
            tables: (LETTERS, ""),
        },
        status: Status::Done,
        cost: "cost 320\n",
        plan: Some("plan [[\"base\",\"r\"],[\"send\",\"X\"],[\"send\",\"U\"]]\n"),
        answer: "answer\na\n-2\n1\n1\n",
    },
    Row {
        given: Given {
            policy: (SUMS, ""),
            prices: SUM_PRICES,
            query: "select a, sum(b) from r group by a",
            tables: (LARGE_NUMBERS, ""),
        },
        status: Status::Done,
        cost: "cost 1690\n",
        plan: Some("plan [[\"base\",\"r\"],[\"un\",1],[\"send\",\"U\"]]\n"),
        answer: "answer\na,b\nx,9223372036854775808\ny,-5\n",
    },
    Row {
        given: Given {
            policy: (ONE_OWNER, ""),
            prices: NEAR_THE_LIMIT,
            query: "select a from r",
            tables: (LETTERS, ""),
        },
        status: Status::Done,
        cost: "cost 340282366920938463389587631136930004992\n",
        plan: Some("plan [[\"base\",\"r\"],[\"send\",\"U\"]]\n"),
        answer: "answer\na\n-2\n1\n1\n",
    },
    Row {
        given: Given {
            policy: (ONE_OWNER, ""),
            prices: PAST_THE_LIMIT,
            query: "select a from r",
            tables: (LETTERS, ""),
        },
        status: Status::CostRange,
        cost: "",
        plan: None,
        answer: "",
    },
    Row {
        given: Given {
            policy: (ONE_OWNER, ""),
            prices: FAR_PAST_THE_LIMIT,
            query: "select a from r",
            tables: (LETTERS, ""),
        },
        status: Status::CostRange,
        cost: "",
        plan: None,
        answer: "",
    },
    Row {
        given: Given {
            policy: (ONE_OWNER, ""),
            prices: FREE_OF_CHARGE,
            query: "select a from r",
            tables: (LETTERS, ""),
        },
        status: Status::Done,
        cost: "cost 0\n",
        plan: None,
        answer: "answer\na\n-2\n1\n1\n",
    },
    Row {
        given: Given {
            policy: (ONE_OWNER, ""),
            prices: FREE_OF_CHARGE,
            query: "select b from r",
            tables: (LETTERS, ""),
        },
        status: Status::NoPlan,
        cost: "cost none\n",
        plan: Some(""),
        answer: "",
    },
];

// What a report has between this front and this end.
pub(crate) fn between<'a>(report: &'a [u8], front: &str, end: &str) -> Option<&'a [u8]> {
    report
        .strip_prefix(front.as_bytes())
        .and_then(|rest| rest.strip_suffix(end.as_bytes()))
}

// Whether a report has these parts.
fn has_parts(report: &[u8], row: &Row<'_>) -> bool {
    let Some(plan) = between(report, row.cost, row.answer) else {
        return false;
    };
    match row.plan {
        Some(line) => plan == line.as_bytes(),
        None => true,
    }
}

fn check_row(rt: &impl Abort, alloc: Global, row: &Row<'_>) -> Result<(), NoMemory> {
    let mut sink = MemorySink::of(alloc, Seq::new(alloc));
    let status = ran(alloc, &RUN, files(alloc, &row.given)?, &mut sink)?;
    assert_eq!(rt; status, row.status, "{}", row.given.query);
    assert!(rt; has_parts(sink.written(), row), "{}", row.given.query);
    Ok(())
}

fn check_all(rt: &impl Abort, alloc: Global, rows: &[Row<'_>]) -> Result<(), NoMemory> {
    for row in rows {
        check_row(rt, alloc, row)?;
    }
    Ok(())
}

#[test]
fn least_plans_are_run(rt: HostRuntime) -> Result<(), Fail> {
    check_all(&rt, rt.alloc(), &ROWS)?;
    Ok(())
}

// O owns r(a INT, b TEXT), which U may see of a, and three tables of one column.
const FOUR_TABLES: &str =
    "version = 1\nuser = \"U\"\nsubjects = [\"O\", \"U\"]\n[[table]]\nname = \"r\"\nowner = \"O\"\ncolumns = [{ name = \"a\", type = \"INT\" }, { name = \"b\", type = \"TEXT\" }]\n[[table]]\nname = \"s1\"\nowner = \"O\"\ncolumns = [{ name = \"k1\", type = \"INT\" }]\n[[table]]\nname = \"s2\"\nowner = \"O\"\ncolumns = [{ name = \"k2\", type = \"INT\" }]\n[[table]]\nname = \"s3\"\nowner = \"O\"\ncolumns = [{ name = \"k3\", type = \"INT\" }]\n[[rule]]\ntable = \"r\"\nsubject = \"U\"\nplain = [\"a\"]\n";

const FOUR_PRICES: &str =
    "version = 1\n[cpu]\nO = 1\nU = 2\n[net]\ndefault = 3\n[rows]\nr = 10\ns1 = 1\ns2 = 1\ns3 = 1\n[distinct]\na = 5\nb = 7\nk1 = 1\nk2 = 1\nk3 = 1\n";

// A table of one column with 100,000 rows.
fn long_table(alloc: Global, name: &str) -> Result<Text, NoMemory> {
    let mut table = String::from_str(alloc, name)?;
    for _ in 0..100_000 {
        table.push_str("\n1")?;
    }
    Ok(Text::of(table.into_bytes()))
}

// The files of a command over these tables.
fn four_files(alloc: Global, query: &str) -> Result<Seq<(Text, Text)>, NoMemory>
    ensures { IfOk result HasDistinctNames }
{
    let mut files = Seq::new(alloc);
    files.push((
        Text::copied(alloc, b"policy")?,
        Text::copied(alloc, FOUR_TABLES.as_bytes())?,
    ))?;
    files.push((
        Text::copied(alloc, b"prices")?,
        Text::copied(alloc, FOUR_PRICES.as_bytes())?,
    ))?;
    files.push((
        Text::copied(alloc, b"query")?,
        Text::copied(alloc, query.as_bytes())?,
    ))?;
    files.push((
        Text::copied(alloc, b"r.csv")?,
        Text::copied(alloc, LETTERS.as_bytes())?,
    ))?;
    files.push((Text::copied(alloc, b"s1.csv")?, long_table(alloc, "k1")?))?;
    files.push((Text::copied(alloc, b"s2.csv")?, long_table(alloc, "k2")?))?;
    files.push((Text::copied(alloc, b"s3.csv")?, long_table(alloc, "k3")?))?;
    Ok(files)
}

// The product of the three long tables would have 10^15 rows; it is the second node of two operands, and the first that is wide.
#[test]
fn wide_products_are_refused_unbuilt(rt: HostRuntime) -> Result<(), Fail> {
    let alloc = rt.alloc();
    let mut sink = MemorySink::of(alloc, Seq::new(alloc));
    let files = four_files(alloc, "select a from s1, s2, s3, r")?;
    let status = ran(alloc, &RUN, files, &mut sink)?;
    assert_eq!(rt; status, Status::RowRange(NodeId(4)));
    assert_eq!(rt; sink.written().len(), 0);
    Ok(())
}

// Eight subjects, O among them, who may each see all fifteen columns of t plain.
const MANY_STATES: &str =
    "version = 1\nuser = \"U\"\nsubjects = [\"O\", \"S1\", \"S2\", \"S3\", \"S4\", \"S5\", \"S6\", \"U\"]\n[[table]]\nname = \"t\"\nowner = \"O\"\ncolumns = [{ name = \"a1\", type = \"INT\" }, { name = \"a2\", type = \"INT\" }, { name = \"a3\", type = \"INT\" }, { name = \"a4\", type = \"INT\" }, { name = \"a5\", type = \"INT\" }, { name = \"a6\", type = \"INT\" }, { name = \"a7\", type = \"INT\" }, { name = \"a8\", type = \"INT\" }, { name = \"a9\", type = \"INT\" }, { name = \"a10\", type = \"INT\" }, { name = \"a11\", type = \"INT\" }, { name = \"a12\", type = \"INT\" }, { name = \"a13\", type = \"INT\" }, { name = \"a14\", type = \"INT\" }, { name = \"a15\", type = \"INT\" }]\n[[rule]]\ntable = \"t\"\nsubject = \"any\"\nplain = [\"a1\", \"a2\", \"a3\", \"a4\", \"a5\", \"a6\", \"a7\", \"a8\", \"a9\", \"a10\", \"a11\", \"a12\", \"a13\", \"a14\", \"a15\"]\n";

const MANY_PRICES: &str =
    "version = 1\n[cpu]\nO = 1\nS1 = 1\nS2 = 1\nS3 = 1\nS4 = 1\nS5 = 1\nS6 = 1\nU = 1\n[net]\ndefault = 1\n[rows]\nt = 1\n[distinct]\na1 = 1\na2 = 1\na3 = 1\na4 = 1\na5 = 1\na6 = 1\na7 = 1\na8 = 1\na9 = 1\na10 = 1\na11 = 1\na12 = 1\na13 = 1\na14 = 1\na15 = 1\n";

// The files of a command over that table, which has no rows.
fn many_files(alloc: Global, query: &str) -> Result<Seq<(Text, Text)>, NoMemory>
    ensures { IfOk result HasDistinctNames }
{
    let mut files = Seq::new(alloc);
    files.push((
        Text::copied(alloc, b"policy")?,
        Text::copied(alloc, MANY_STATES.as_bytes())?,
    ))?;
    files.push((
        Text::copied(alloc, b"prices")?,
        Text::copied(alloc, MANY_PRICES.as_bytes())?,
    ))?;
    files.push((
        Text::copied(alloc, b"query")?,
        Text::copied(alloc, query.as_bytes())?,
    ))?;
    files.push((
        Text::copied(alloc, b"t.csv")?,
        Text::copied(
            alloc,
            b"a1,a2,a3,a4,a5,a6,a7,a8,a9,a10,a11,a12,a13,a14,a15\n",
        )?,
    ))?;
    Ok(files)
}

// Queries with the status of their command: each column plain or sealed at each of eight subjects makes 131,072 states of fourteen
// columns, and 262,144 of fifteen; a selection has some more of its own.
const MANY: [(&str, Status); 3] = [
    (
        "select a1, a2, a3, a4, a5, a6, a7, a8, a9, a10, a11, a12, a13, a14 from t",
        Status::Done,
    ),
    (
        "select a1, a2, a3, a4, a5, a6, a7, a8, a9, a10, a11, a12, a13, a14, a15 from t",
        Status::TooManyStates(NodeId(0)),
    ),
    (
        "select a1, a2, a3, a4, a5, a6, a7, a8, a9, a10, a11, a12, a13, a14 from t where a1 = 1",
        Status::TooManyStates(NodeId(1)),
    ),
];

fn check_many(rt: &impl Abort, alloc: Global, rows: &[(&str, Status)]) -> Result<(), NoMemory> {
    for (query, want) in rows {
        let mut sink = MemorySink::of(alloc, Seq::new(alloc));
        let status = ran(alloc, &RUN, many_files(alloc, query)?, &mut sink)?;
        assert_eq!(rt; status, *want, "{query}");
    }
    Ok(())
}

#[test]
fn states_are_counted_that_are_reached(rt: HostRuntime) -> Result<(), Fail> {
    check_many(&rt, rt.alloc(), &MANY)?;
    Ok(())
}
