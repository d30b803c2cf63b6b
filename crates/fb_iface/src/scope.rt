//! What names mean in a network: the unit's own names, and the ports of the types of its instances.
ghost use Rattle.std.specs.{Prelude.{◌≡◌, IfOk, List, map, ℕ, nat_eq, OnOk}, Cmp.Lexicographic.{pointwise}, Option.{option_map}, HashMap.{get}};
ghost use Rattle.fb_tree.specs.Tree.{instance_tree, network_tree, type_tree};
ghost use Rattle.fb_library.specs.View.{tree_at};
ghost use Rattle.fb_iface.specs.Scope.{instance_ports, mentioned_type, ports_of, scope_of_network, scope_of_type, type_ports_of};
ghost use Rattle.fb_iface.specs.ScopeTypes.{kept_of, scope_in, with_type};

use crate::by_name::PortsByName;
use crate::instances::is_suited;
use crate::interfaces;
use crate::ports::{DeclaredInstance, Ports};
use fb_library::{View, tree_by_name};
use fb_tree::text::Name;
use fb_tree::{Instance, Network, Role, TypeDeclaration, UnitKind, kind};
use std::alloc::{AllocError, Global};
use std::collections::HashMap;

/// A type that is present and not broken, with its ports.
#[derive(Drop)]
struct TypePorts<'a> {
    kind: UnitKind,
    ports: PortsByName<'a>,
}

/// What names mean in a network. Each type is kept once, however many instances have it.
pub struct Scope<'a> {
    own: PortsByName<'a>,
    types: HashMap<Name, TypePorts<'a>>,
}

impl<'a> Drop for Scope<'a> {
    fn drop(self) {
        let Self { own: _, types: _ } = self;
    }
}

impl<'a> Scope<'a> {
    /// What names mean in a network, by the unit's own names.
    pub fn new<V: View>(
        alloc: Global,
        view: &'a V,
        own: Ports<'a>,
        network: &Network,
    ) -> Result<Scope<'a>, AllocError>
        ensures { IfOk result (λ scope. scope_in scope
            ≡ record {
              own = own.entry;
              type_ports = type_ports_of (V.sources view.now)
                  (network_tree network.now);
            }) }
    {
        let types = types_of(alloc, view, network.instances.as_slice())?;
        let own = PortsByName::by_tables(own);
        Ok(Scope { own, types })
    }

    /// What names mean in a type.
    pub fn of_type<V: View>(
        alloc: Global,
        view: &'a V,
        declared: &'a TypeDeclaration,
    ) -> Result<Scope<'a>, AllocError>
        ensures { IfOk result
            (λ scope. scope_in scope
            ≡ scope_of_type (V.sources view.now) (type_tree declared.now)) }
    {
        let own = Ports::of_type(alloc, declared)?;
        Scope::new(alloc, view, own, &declared.network)
    }

    /// What names mean in the network of an application.
    pub fn of_network<V: View>(
        alloc: Global,
        view: &'a V,
        network: &'a Network,
    ) -> Result<Scope<'a>, AllocError>
        ensures { IfOk result
            (λ scope. scope_in scope
            ≡ scope_of_network (V.sources view.now) (network_tree network.now)) }
    {
        let own = Ports::of_network(alloc, network)?;
        Scope::new(alloc, view, own, network)
    }

    /// The unit's own names.
    pub fn own(&self) -> &PortsByName<'a>
        ensures { result.now ≡ (scope_in self.now).own }
    {
        &self.own
    }

    /// The ports of a type that an instance of the network has, if it is usable in this role: present, not broken and of the
    /// kind that the section of the instance requires.
    pub fn type_ports(&self, role: Role, type_name: &Name) -> Option<&PortsByName<'a>>
        ensures { option_map (λ p. p.now) result
            ≡ (scope_in self.now).type_ports role type_name.now }
    {
        match self.types.get(type_name) {
            Some(kept) if is_suited(role, kept.kind) => Some(&kept.ports),
            _ => None,
        }
    }

    /// The ports of an instance, a plug or a socket, if its type is usable.
    pub fn instance_ports(&self, instance: &DeclaredInstance<'_>) -> Option<&PortsByName<'a>>
        ensures { option_map (λ p. p.now) result ≡ instance_ports (scope_in self.now) instance.now }
    {
        self.type_ports(instance.role(), &instance.type_name().name.name())
    }

    /// The ports of what the name means among the instances, plugs and sockets.
    pub fn ports_of(&self, name: &Name) -> Option<&PortsByName<'a>>
        ensures { option_map (λ p. p.now) result ≡ ports_of (scope_in self.now) name.now }
    {
        match self.own.instance(name) {
            Some(instance) => self.instance_ports(&instance),
            None => None,
        }
    }
}

/// The types of instances, each once.
fn types_of<'a, V: View>(
    alloc: Global,
    view: &'a V,
    instances: &[Instance],
) -> Result<HashMap<Name, TypePorts<'a>>, AllocError>
    ensures { IfOk result (λ types. (name : List ℕ) → get (pointwise nat_eq) types name
        ≡ option_map kept_of
        (mentioned_type (V.sources view.now) (map instance_tree instances.now) name)) }
{
    let mut types = HashMap::new(alloc);
    for instance in instances {
        add_type(alloc, view, &instance.type_name.name.name(), &mut types)?;
    }
    Ok(types)
}

/// Adds a type, if it is present and not broken and isn't there yet.
fn add_type<'a, V: View>(
    alloc: Global,
    view: &'a V,
    name: &Name,
    types: &mut HashMap<Name, TypePorts<'a>>,
) -> Result<(), AllocError>
    ensures { OnOk result ((q : List ℕ) → get (pointwise nat_eq) types.new q
        ≡ with_type name.now (tree_at (V.sources view.now) name.now)
        (get (pointwise nat_eq) types.old) q) }
{
    if types.contains_key(name) {
        return Ok(());
    }
    if let Some(decl) = tree_by_name(view, name) {
        let kept = TypePorts {
            kind: kind(decl),
            ports: interfaces::ports_by_name(alloc, decl)?,
        };
        types.insert(*name, kept)?;
    }
    Ok(())
}
