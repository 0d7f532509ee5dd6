ghost use Rattle.policy_base.specs.Accepted.{IsAccepted};

use super::{FILE, POLICY, changed, policy_of};
use policy_base::Policy;
use price_reader::read_prices;
use std::alloc::Global;
use std::process::Abort;
use std::test::Fail;

// A text of the file, what stands in its place, and the prices from U, O and X to each of these.
type Row<'a> = (&'a str, &'a str, [[u64; 3]; 3]);

const LINKS: &str = "{from = 'O', to = 'U', price = 5}, {from = 'U', to = 'O', price = 6}";

const ROWS: [Row; 6] = [
    (
        "version = 1",
        "version = 1",
        [[0, 6, 4], [5, 0, 4], [4, 4, 0]],
    ),
    (LINKS, "", [[0, 4, 4], [4, 0, 4], [4, 4, 0]]),
    (
        LINKS,
        "{from = 'X', to = 'U', price = 0}",
        [[0, 4, 4], [4, 0, 4], [0, 4, 0]],
    ),
    (
        LINKS,
        "{from = 'U', to = 'X', price = 9223372036854775807}",
        [[0, 4, 9223372036854775807], [4, 0, 4], [4, 4, 0]],
    ),
    (
        "default = 4",
        "default = 0",
        [[0, 6, 0], [5, 0, 0], [0, 0, 0]],
    ),
    (
        "default = 4",
        "default = 9223372036854775807",
        [
            [0, 6, 9223372036854775807],
            [5, 0, 9223372036854775807],
            [9223372036854775807, 9223372036854775807, 0],
        ],
    ),
];

// So many numbers, and 0 past them.
fn padded<const N: usize>(numbers: &[u64]) -> [u64; N] {
    let mut all = [0; N];
    for (at, number) in numbers.iter().enumerate() {
        if let Some(place) = all.get_mut(at) {
            *place = *number;
        }
    }
    all
}

// The prices of a changed file, from U, O and X.
fn check_row(rt: &impl Abort, alloc: Global, policy: &Policy, row: &Row) -> Result<(), Fail>
    requires { IsAccepted policy.now }
{
    let (old, new, ways) = row;
    let text = changed(alloc, FILE, old, new)?;
    let prices = read_prices(alloc, text.as_bytes(), policy)?;
    let mut net = [[0; 16]; 16];
    net[0] = padded(&ways[0]);
    net[1] = padded(&ways[1]);
    net[2] = padded(&ways[2]);
    assert_eq!(rt; prices.net, net, "{new}");
    assert_eq!(rt; prices.cpu, padded(&[2, 1, 3]), "{new}");
    assert_eq!(rt; prices.rows, padded(&[8, 7]), "{new}");
    assert_eq!(rt; prices.distinct, padded(&[11, 10, 9]), "{new}");
    Ok(())
}

fn check(rt: &impl Abort, alloc: Global, policy: &Policy, rows: &[Row]) -> Result<(), Fail>
    requires { IsAccepted policy.now }
{
    for row in rows {
        check_row(rt, alloc, policy, row)?;
    }
    Ok(())
}

#[test]
fn prices_have_their_values(rt: HostRuntime) -> Result<(), Fail> {
    let alloc = rt.alloc();
    let policy = policy_of(alloc, POLICY)?;
    check(&rt, alloc, &policy, &ROWS)
}
