//! The names of instances.
ghost use Rattle.std.specs.Prelude.{◌≡◌, ◌<◌, ◌≤◌, ◌++◌, ◌∷◌, [], IfOk, OnOk};
ghost use Rattle.std.specs.List.{filter_map, flat_map};
ghost use Rattle.lx_caps.specs.Names.{instance_count};
ghost use Rattle.lx_model.specs.Account.{instance_name, instance_names};
ghost use Rattle.lx_slot_types.specs.Gets.{below};

use lx_model::account::InstanceName;
use lx_principals::Principals;
use lx_words::Memory;
use std::alloc::Global;

fn put_name(
    out: &mut Vec<InstanceName>,
    names: &Principals,
    home: u32,
    instance: u32,
) -> Result<(), Memory>
    ensures { OnOk result (out.new.items ≡ out.old.items ++ filter_map (instance_name names.now.names home) (instance ∷ [])) }
{
    if let Some(value) = names.first_name(home, instance) {
        out.push(InstanceName {
            module: home,
            instance,
            value,
        })?;
    }
    Ok(())
}

fn put_first_names(
    out: &mut Vec<InstanceName>,
    names: &Principals,
    home: u32,
    count: u32,
) -> Result<(), Memory>
    ensures { OnOk result (out.new.items ≡ out.old.items ++ filter_map (instance_name names.now.names home) (below count)) }
{
    for instance in 0..count {
        put_name(out, names, home, instance)?;
    }
    Ok(())
}

fn put_module(out: &mut Vec<InstanceName>, names: &Principals, home: u32) -> Result<(), Memory>
    requires { home < names.now.modules }
    ensures { OnOk result (out.new.items ≡ out.old.items ++ instance_names names.now.names home) }
{
    let count = names.count(home);
    put_first_names(out, names, home, count)?;
    Ok(())
}

/// The first names of the instances of the first `modules` modules, module by module.
///
/// # Errors
/// Want of memory.
pub fn instance_names(
    alloc: Global,
    names: &Principals,
    modules: u32,
) -> Result<Vec<InstanceName>, Memory>
    requires { modules ≤ names.now.modules }
    ensures { IfOk result (λ out. out.items ≡ flat_map (instance_names names.now.names) (below modules)) }
{
    let mut out = Vec::new(alloc);
    for home in 0..modules {
        put_module(&mut out, names, home)?;
    }
    Ok(out)
}
