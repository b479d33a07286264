use crate::ExportError;
use crate::budget::Budget;
use crate::clash::exports_apart;
use crate::known::{exports_known, imports_exported};
use crate::settling::{interfaces, settle};
use crate::unit::Units;
use hr_tables::Interfaces;
use hr_tree::Module;
use std::alloc::Global;

/// What the modules export and what is in scope in each. Of each module in the order given are refused first an
/// import of what isn't exported, then an export of nothing, then a clash of exports.
pub fn close(
    alloc: Global,
    modules: &[Module],
    order: &[usize],
) -> Result<Interfaces, ExportError> {
    let mut units = Units::new(alloc, modules)?;
    let mut budget = Budget::new();
    for number in order {
        if let Some(unit) = units.list.get(*number) {
            imports_exported(&units, unit)?;
        }
        settle(alloc, &mut units, *number, &mut budget)?;
        if let Some(unit) = units.list.get(*number) {
            exports_known(alloc, &units, unit)?;
            exports_apart(alloc, &units, unit, &mut budget)?;
        }
    }
    Ok(interfaces(alloc, &units)?)
}
