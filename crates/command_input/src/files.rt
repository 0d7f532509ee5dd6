ghost use Rattle.std.specs.Prelude.{◌≡◌, ◌≤◌, ◌∷◌, [], map, length, IfOk, IfErr};
ghost use Rattle.std.specs.String.{string_bytes};
ghost use Rattle.std.specs.List.{AllByRecursion};
ghost use Rattle.mq_base.specs.BoundQuery.{IsBound};
ghost use Rattle.mq_base.specs.Table.{HasForm};
ghost use Rattle.mq_base.specs.declared.table.PlainTable.{PlainTable};
ghost use Rattle.outside_io.specs.Outside.{IsHeld, Follows};
ghost use Rattle.policy_base.specs.Accepted.{IsAccepted};
ghost use Rattle.policy_base.specs.Priced.{IsPriced};
ghost use Rattle.command_input.specs.Commands.{command_in, run_in};
ghost use Rattle.command_input.specs.Input.{most, policy_input, prices_input, query_input, table_file, table_input, tables_input, run_task, task_of};
ghost use Rattle.command_input.specs.Loading.{StopsReading, Loads, Loaded, IsSoundRun, IsSound};

use crate::fault::FileRole;
use crate::load_no::{LoadNo, judge, refused};
use crate::query::read_bound;
use crate::task::{RunTask, Task};
use crate::words::{Command, RunWords};
use mq_base::{NoMemory, PlainTable, Query, Refusal, Seq, TableId};
use outside_io::{Shelf, ShelfNo};
use policy_base::{Policy, Prices};
use policy_reader::read_policy;
use price_reader::read_prices;
use std::alloc::Global;
use table_reader::read_table;

// The most bytes that a file may have.
const MOST: usize = 67_108_864;

// The refusal of a file that has more.
const TOO_LONG: Refusal = Refusal {
    code: 0,
    at: 0,
    item: 0,
};

// The bytes of a file.
fn read_file<H: Shelf>(
    alloc: Global,
    shelf: &mut H,
    file: FileRole,
    name: &str,
) -> Result<Vec<u8>, LoadNo>
    ensures content { IfOk result (λ bytes. IsHeld (H.state shelf.old).held name.now bytes.items) }
    ensures within { IfOk result (λ bytes. length bytes.items ≤ most) }
    ensures stops { IfErr result (StopsReading (H.state shelf.old) (H.state shelf.new) file name.now) }
    ensures follows { Follows (H.state shelf.old) (H.state shelf.new) }
{
    match shelf.read(alloc, name, MOST) {
        Ok(bytes) => Ok(bytes),
        Err(ShelfNo::Failed) => Err(LoadNo::Failed(file)),
        Err(ShelfNo::TooLong) => Err(refused(file, TOO_LONG)),
        Err(ShelfNo::NoMemory) => Err(LoadNo::NoMemory),
    }
}

// The policy of a command.
fn load_policy<H: Shelf>(alloc: Global, shelf: &mut H, name: &str) -> Result<Policy, LoadNo>
    ensures loads { Loads (H.state shelf.old) (H.state shelf.new) (FileRole.Policy ∷ []) (policy_input name.now) result }
    ensures accepted { IfOk result IsAccepted }
    ensures follows { Follows (H.state shelf.old) (H.state shelf.new) }
{
    let bytes = read_file(alloc, shelf, FileRole::Policy, name)?;
    judge(FileRole::Policy, read_policy(alloc, bytes.as_slice()))
}

// The prices of a command.
fn load_prices<H: Shelf>(
    alloc: Global,
    shelf: &mut H,
    policy: &Policy,
    name: &str,
) -> Result<Prices, LoadNo>
    requires { IsAccepted policy.now }
    ensures loads { Loads (H.state shelf.old) (H.state shelf.new) (FileRole.Prices ∷ []) (prices_input policy.now name.now) result }
    ensures priced { IfOk result (IsPriced (length policy.now.schema.attrs)) }
    ensures follows { Follows (H.state shelf.old) (H.state shelf.new) }
{
    let bytes = read_file(alloc, shelf, FileRole::Prices, name)?;
    judge(
        FileRole::Prices,
        read_prices(alloc, bytes.as_slice(), policy),
    )
}

// The query of a command.
fn load_query<H: Shelf>(
    alloc: Global,
    shelf: &mut H,
    policy: &Policy,
    name: &str,
) -> Result<Query, LoadNo>
    requires { IsAccepted policy.now }
    ensures loads { Loads (H.state shelf.old) (H.state shelf.new) (FileRole.Query ∷ []) (query_input policy.now name.now) result }
    ensures bound { IfOk result (IsBound policy.now.schema) }
    ensures follows { Follows (H.state shelf.old) (H.state shelf.new) }
{
    let bytes = read_file(alloc, shelf, FileRole::Query, name)?;
    read_bound(alloc, bytes.as_slice(), &policy.schema)
}

// The name of a table's file.
fn table_file_name(alloc: Global, policy: &Policy, t: TableId) -> Result<String, NoMemory>
    requires { IsAccepted policy.now }
    ensures { IfOk result (λ name. string_bytes name ≡ table_file policy.now t) }
{
    let mut name = String::from_str(alloc, policy.table_name(t))?;
    name.push_str(".csv")?;
    Ok(name)
}

// The content of a table.
fn load_table<H: Shelf>(
    alloc: Global,
    shelf: &mut H,
    policy: &Policy,
    t: TableId,
) -> Result<PlainTable, LoadNo>
    requires { IsAccepted policy.now }
    ensures loads { Loads (H.state shelf.old) (H.state shelf.new) (FileRole.Table t ∷ []) (table_input policy.now t) result }
    ensures form { IfOk result (HasForm policy.now.schema) }
    ensures named { IfOk result (λ table. table.table ≡ t) }
    ensures follows { Follows (H.state shelf.old) (H.state shelf.new) }
{
    let name = table_file_name(alloc, policy, t)?;
    let bytes = read_file(alloc, shelf, FileRole::Table(t), name.as_str())?;
    judge(
        FileRole::Table(t),
        read_table(alloc, bytes.as_slice(), &policy.schema, t),
    )
}

// The contents of tables, in their order.
fn load_tables<H: Shelf>(
    alloc: Global,
    shelf: &mut H,
    policy: &Policy,
    tables: &[TableId],
) -> Result<Seq<PlainTable>, LoadNo>
    requires { IsAccepted policy.now }
    ensures loads { Loads (H.state shelf.old) (H.state shelf.new) (map (λ t. FileRole.Table t) tables.now) (tables_input policy.now tables.now) result }
    ensures listed { IfOk result (λ contents. map (λ (table : PlainTable). table.table) contents ≡ tables.now) }
    ensures form { IfOk result (AllByRecursion (HasForm policy.now.schema)) }
    ensures follows { Follows (H.state shelf.old) (H.state shelf.new) }
{
    let mut contents = Vec::with_capacity(alloc, tables.len())?;
    'tables: for t in tables {
        contents.push(load_table(alloc, shelf, policy, *t)?)?;
    }
    Ok(Seq::of(contents))
}

// The files of a command `run`.
fn load_run<H: Shelf>(alloc: Global, shelf: &mut H, words: &RunWords) -> Result<RunTask, LoadNo>
    ensures loaded { Loaded (H.state shelf.old) (H.state shelf.new) (run_task (run_in words.now)) result }
    ensures sound { IfOk result IsSoundRun }
    ensures follows { Follows (H.state shelf.old) (H.state shelf.new) }
{
    let policy = load_policy(alloc, shelf, words.policy)?;
    let prices = load_prices(alloc, shelf, &policy, words.prices)?;
    let query = load_query(alloc, shelf, &policy, words.query)?;
    let tables = load_tables(alloc, shelf, &policy, query.tables.as_slice())?;
    Ok(RunTask {
        policy,
        prices,
        query,
        tables,
        seed: words.seed,
        schedule: words.schedule,
    })
}

/// Reads the files of a command from the shelf, each judged before the next is read: for `run` the policy, the prices, the
/// query, and the tables of the query in the order of FROM (docs/FORMATS.md, "Input"). A file of more than 67,108,864 bytes is
/// refused.
///
/// It answers the task that the files stand for. The errors tell the first file that is refused, the first that could not be read,
/// or that memory was wanting.
pub fn load<H: Shelf>(alloc: Global, shelf: &mut H, command: Command) -> Result<Task, LoadNo>
    ensures loaded { Loaded (H.state shelf.old) (H.state shelf.new) (task_of (command_in command.entry)) result }
    ensures sound { IfOk result IsSound }
    ensures follows { Follows (H.state shelf.old) (H.state shelf.new) }
{
    match command {
        Command::Run(words) => Ok(Task::Run(load_run(alloc, shelf, &words)?)),
    }
}
