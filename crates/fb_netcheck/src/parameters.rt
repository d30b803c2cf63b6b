//! Parameters of block instances.
ghost use Rattle.std.specs.{Prelude.{◌≡◌, ◌++◌, None, OnOk, map}, List.{flat_map}, Option.{option_map}};
ghost use Rattle.fb_tree.specs.Tree.{instance_tree, parameter_tree};
ghost use Rattle.fb_iface.specs.{Names.{stands_for}, ScopeTypes.{scope_in}};
ghost use Rattle.fb_netcheck.specs.Parameters.{instance_parameters, parameter_faults, typed_parameters};

use fb_iface::{Code, DeclaredVariable, Fault, PortsByName, Scope, report_constant};
use fb_tree::{Instance, Parameter, Role, Section};
use std::alloc::AllocError;

/// Reports parameters that are no data inputs of their instance's type, and values that do not fit.
pub fn report_parameters(
    scope: &Scope<'_>,
    instances: &[Instance],
    found: &mut Vec<Fault>,
) -> Result<(), AllocError>
    ensures { OnOk result (found.new.items ≡ found.old.items
        ++ flat_map
        (λ i. instance_parameters (scope_in scope.now) (instance_tree i)) instances.now) }
{
    for instance in instances {
        report_in_instance(scope, instance, found)?;
    }
    Ok(())
}

/// Reports those of one instance.
fn report_in_instance(
    scope: &Scope<'_>,
    instance: &Instance,
    found: &mut Vec<Fault>,
) -> Result<(), AllocError>
    ensures { OnOk result (found.new.items
        ≡ found.old.items
        ++ instance_parameters (scope_in scope.now) (instance_tree instance.now)) }
{
    match instance.role {
        Role::Block => {
            let ports = scope.type_ports(Role::Block, &instance.type_name.name.name());
            report_typed(ports, instance.parameters.as_slice(), found)
        }
        Role::Plug | Role::Socket | Role::Subapplication => Ok(()),
    }
}

/// Reports the parameters of an instance whose type has these ports, if it is usable.
fn report_typed(
    ports: Option<&PortsByName<'_>>,
    parameters: &[Parameter],
    found: &mut Vec<Fault>,
) -> Result<(), AllocError>
    ensures { OnOk result (found.new.items
        ≡ found.old.items
        ++ typed_parameters (option_map (λ p. p.now) ports.entry)
        (map parameter_tree parameters.now)) }
{
    match ports {
        Some(ports) => report_of_type(ports, parameters, found),
        None => Ok(()),
    }
}

fn report_of_type(
    ports: &PortsByName<'_>,
    parameters: &[Parameter],
    found: &mut Vec<Fault>,
) -> Result<(), AllocError>
    ensures { OnOk result (found.new.items ≡ found.old.items
        ++ flat_map
        (λ p. parameter_faults (stands_for ports.now.variables p.name.name)
        (parameter_tree p)) parameters.now) }
{
    for parameter in parameters {
        report_parameter(
            ports.variable(&parameter.name.name.name()),
            parameter,
            found,
        )?;
    }
    Ok(())
}

/// Reports a parameter that is no data input, or whose value does not fit.
fn report_parameter(
    variable: Option<DeclaredVariable<'_>>,
    parameter: &Parameter,
    found: &mut Vec<Fault>,
) -> Result<(), AllocError>
    ensures { OnOk result (found.new.items
        ≡ found.old.items
        ++ parameter_faults variable.entry (parameter_tree parameter.now)) }
{
    match variable {
        Some(variable) => match variable.section() {
            Section::Input => report_constant(variable.type_use(), &parameter.value, found),
            Section::Output | Section::Internal | Section::Field => {
                report_unknown(parameter, found)
            }
        },
        None => report_unknown(parameter, found),
    }
}

fn report_unknown(parameter: &Parameter, found: &mut Vec<Fault>) -> Result<(), AllocError>
    ensures { OnOk result
        (found.new.items
        ≡ found.old.items ++ parameter_faults None (parameter_tree parameter.now)) }
{
    found.push(Fault::at(Code::ParameterUnknown, &parameter.name))?;
    Ok(())
}
