//! The flat networks of applications.
ghost use Rattle.std.specs.{Prelude.{IfOk}, BTreeMap.{get}};
ghost use Rattle.fb_tree.specs.Text.Order.{name_cmp};
ghost use Rattle.fb_types.specs.Tables.{AreComposedApplications, AreComposedTogether, IsComposedApplication};

use crate::systems::Application;
use crate::tables::Table;
use fb_network::{Flat, FlatApplication, Nets, compose_by_part, join};
use std::alloc::{AllocError, Global};

fn flat_of_application<N: Nets>(
    alloc: Global,
    table: &Table,
    nets: &N,
    application: &Application,
) -> Result<FlatApplication, AllocError>
    ensures { IfOk result
        (IsComposedApplication (get name_cmp table.now) (N.nets nets.now) application.now) }
{
    let flat = compose_by_part(alloc, table, &application.network, nets)?;
    Ok(FlatApplication {
        name: application.name,
        flat,
    })
}

fn flats_of_applications<N: Nets>(
    alloc: Global,
    table: &Table,
    nets: &N,
    applications: &[Application],
) -> Result<Vec<FlatApplication>, AllocError>
    ensures { IfOk result (λ flats.
        AreComposedApplications (get name_cmp table.now)
        (N.nets nets.now) applications.now flats.items) }
{
    let mut flats = Vec::new(alloc);
    for application in applications {
        flats.push(flat_of_application(alloc, table, nets, application)?)?;
    }
    Ok(flats)
}

/// The flat network of the applications together.
pub fn flat_of_applications<N: Nets>(
    alloc: Global,
    table: &Table,
    nets: &N,
    applications: &[Application],
) -> Result<Flat, AllocError>
    ensures { IfOk result
        (AreComposedTogether (get name_cmp table.now) (N.nets nets.now) applications.now) }
{
    let flats = flats_of_applications(alloc, table, nets, applications)?;
    join(alloc, flats.as_slice())
}
