ghost use Rattle.std.specs.Prelude.{◌≡◌, ◌≢◌, IfOk, IfErr, MatchOption, string_bytes, not, option_copied};
ghost use Rattle.std.specs.List.{find};
ghost use Rattle.std.specs.BTreeMap.{keys};
ghost use Rattle.toml.specs.View.{table_view, view};
ghost use Rattle.tcel_target.specs.Costs.{CostsInRange, IsCost};
ghost use Rattle.tcel_target.specs.Target.{GivesCost, HasNoStrange, IsLeastStrange, Says};
ghost use Rattle.tcel_target.specs.Reading.{AreGiven, IsCostIn, IsFirstKeyFault, IsKeyFault, IsNoCost, IsRefusal, is_listed};
ghost use Rattle.tcel_target.specs.declared.fail.TargetFail.TheVariants.{Missing, Range};
ghost use Rattle.tcel_target.specs.declared.costs.CostKey.TheVariants.{Dispatch};

use crate::costs::{CostKey, Costs};
use crate::fail::TargetFail;
use crate::key_text::KeyText;
use std::alloc::Global;
use toml::{Table, Value};

/// The cost table of a target, or its fault (docs/formats.md).
pub fn read_target(alloc: Global, bytes: &[u8]) -> Result<Costs, TargetFail>
    ensures says { Says bytes.now result }
    ensures ranges { IfOk result CostsInRange }
{
    match toml::table_from_slice(alloc, bytes) {
        Ok(table) => costs_of(alloc, &table),
        Err(error) => Err(if error.is_memory() {
            TargetFail::NoMemory
        } else {
            TargetFail::NotToml
        }),
    }
}

fn costs_of(alloc: Global, table: &Table) -> Result<Costs, TargetFail>
    ensures known { IfOk result (λ costs. HasNoStrange (table_view table.now) × AreGiven (table_view table.now) costs) }
    ensures refusal { IfErr result (IsRefusal (table_view table.now)) }
{
    match strange_key(table) {
        None => listed_costs(table),
        Some(text) => Err(TargetFail::Strange {
            key: KeyText::new(alloc, text.as_bytes())?,
        }),
    }
}

/// The least key of the table that isn't listed.
fn strange_key(table: &Table) -> Option<&String>
    ensures { MatchOption result (HasNoStrange (table_view table.now)) (λ text. IsLeastStrange (table_view table.now) (string_bytes text.now)) }
{
    let _keys = table.len();
    first_unlisted(table)
}

fn first_unlisted(table: &Table) -> Option<&String>
    ensures { option_copied result ≡ find (λ text. not (is_listed (string_bytes text))) (keys table.now) }
{
    table.keys().find(|text| !is_listed(text.as_bytes()))
}

fn is_listed(text: &[u8]) -> bool
    ensures { result ≡ is_listed text.now }
{
    CostKey::ALL.iter().any(|key| text == key.text().as_bytes())
}

/// The costs at the keys, in the order of the list.
fn listed_costs(table: &Table) -> Result<Costs, TargetFail>
    ensures given { IfOk result (AreGiven (table_view table.now)) }
    ensures refusal { IfErr result (IsFirstKeyFault (table_view table.now)) }
{
    let mut costs = Costs::unit();
    for key in CostKey::ALL {
        costs.set(key, cost_at(table, key)?);
    }
    Ok(costs)
}

/// The cost at a key.
fn cost_at(table: &Table, key: CostKey) -> Result<u32, TargetFail>
    ensures given { IfOk result (GivesCost (table_view table.now) key) }
    ensures range { IfOk result (IsCost key) }
    ensures refusal { IfErr result (IsKeyFault (table_view table.now) key) }
{
    match table.get(key.text()) {
        Some(value) => cost_in(value, key),
        None => cost_without(key),
    }
}

/// The cost of a key at which nothing stands.
fn cost_without(key: CostKey) -> Result<u32, TargetFail>
    ensures given { IfOk result (λ n. (key ≡ Dispatch) × (n ≡ 0)) }
    ensures missing { IfErr result (λ fail. (fail ≡ Missing key) × (key ≢ Dispatch)) }
{
    match key {
        CostKey::Dispatch => Ok(0),
        _ => Err(TargetFail::Missing { key }),
    }
}

fn cost_in(value: &Value, key: CostKey) -> Result<u32, TargetFail>
    ensures cost { IfOk result (IsCostIn (view value.now) key) }
    ensures range { IfErr result (λ fail. (fail ≡ Range key) × IsNoCost (view value.now) key) }
{
    match value.as_integer() {
        Some(cost) if i64::from(key.least()) <= cost && cost <= 1000 => Ok(cost as u32),
        _ => Err(TargetFail::Range { key }),
    }
}
