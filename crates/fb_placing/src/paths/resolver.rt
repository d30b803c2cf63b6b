//! What is at the paths of a system.
ghost use Rattle.std.specs.Prelude.{◌≡◌, [], ◌∷◌, map, IfOk, Some, option_map};
ghost use Rattle.fb_library.specs.View.{text_or_empty, tree_at};
ghost use Rattle.fb_placing.specs.Resolver.{resolved, resolver_of};
ghost use Rattle.fb_placing.specs.Resolved.{leads_nowhere, is_placed, path_names, plain_resolved, resolved_beyond, resolved_in, resolved_inside};
ghost use Rattle.fb_placing.specs.{Systems.{applications_in}, Tables.{instance_at}};

use crate::paths::instances::{
    Applications, Instances, Units, applications_in, instances_by_name, instances_of,
};
use crate::paths::names::path_names;
use crate::paths::split::split_last;
use fb_library::{View, text_by_name};
use fb_tree::text::Name;
use fb_tree::{Instance, Role};
use std::alloc::{AllocError, Global};
use std::collections::BTreeMap;
use std::marker::Model;

/// An instance, and the unit whose text declares it.
#[derive(Clone, Copy)]
pub(crate) struct Resolved<'a> {
    pub unit: Name,
    pub instance: &'a Instance,
}

/// Finds what is at the paths of a system. It keeps tables of the instances that it looked among, and what is at one path: the
/// instances of one type often come one after another.
#[derive(Drop)]
pub(crate) struct Resolver<'a, V: View> {
    alloc: Global,
    view: &'a V,
    system: Name,
    applications: Applications<'a>,
    units: Units<'a>,
    last_path: String,
    last: Option<Resolved<'a>>,
}

impl<'a, V: View> Model for Resolver<'a, V> {
    ghost use Rattle.std.specs.{Prelude.{string_bytes}, BTreeMap.{get}, HashMap.{get_by_text}};
    ghost use Rattle.fb_tree.specs.Text.Order.{name_cmp};
    ghost use Rattle.fb_placing.specs.Resolver.{IsResolver, ResolverView, resolver_code, resolver_of};

    ghost Value = { ResolverView };

    ghost coded = { resolver_code };

    ghost view = { λ it. resolver_of (V.sources it.view.now) it.system };

    ghost invariant = { λ it. IsResolver (resolver_of (V.sources it.view.now) it.system) (get_by_text it.applications) (get name_cmp it.units) (string_bytes it.last_path) it.last };
}

impl<'a> Resolved<'a> {
    /// A copy of the instance, with the unit that declares it.
    fn again(&self) -> Resolved<'a>
        ensures { plain_resolved result ≡ plain_resolved self.now }
    {
        Resolved {
            unit: self.unit,
            instance: self.instance,
        }
    }
}

/// A copy of what was found.
fn again<'a>(found: &Option<Resolved<'a>>) -> Option<Resolved<'a>>
    ensures { option_map plain_resolved result ≡ option_map plain_resolved found.now }
{
    match found {
        Some(it) => Some(it.again()),
        None => None,
    }
}

/// The instance of that name among these, which the unit declares.
fn resolved_among<'a>(unit: Name, instances: &Instances<'a>, name: &str) -> Option<Resolved<'a>>
    ensures { option_map plain_resolved result
        ≡ option_map (resolved_in unit) (instance_at instances.now name.now) }
{
    match instances.get(name) {
        Some(instance) => Some(Resolved {
            unit,
            instance: *instance,
        }),
        None => None,
    }
}

/// Whether the instance is a block or a subapplication instance.
fn is_placed(role: Role) -> bool
    ensures { result ≡ is_placed role }
{
    match role {
        Role::Plug | Role::Socket => false,
        Role::Block | Role::Subapplication => true,
    }
}

impl<'a, V: View> Resolver<'a, V> {
    /// It has looked at nothing yet.
    pub(crate) fn new(
        alloc: Global,
        view: &'a V,
        system: &Name,
    ) -> Result<Resolver<'a, V>, AllocError>
        ensures { IfOk result
            (λ it. it ≡ resolver_of (V.sources view.now) system.now) }
    {
        let applications = applications_in(alloc, view, system)?;
        let last_path = String::new(alloc);
        Ok(Resolver {
            alloc,
            view,
            system: *system,
            applications,
            units: BTreeMap::new(alloc),
            last_path,
            last: None,
        })
    }

    /// The text that declares an instance.
    pub(crate) fn text(&self, it: &Resolved<'_>) -> &'a str
        ensures { result.now ≡ text_or_empty self.now.sources it.now.unit }
    {
        text_by_name(self.view, &it.unit)
    }

    /// The instance of that name in the type of an instance.
    fn inside(
        &mut self,
        outer: &Resolved<'a>,
        name: &str,
    ) -> Result<Option<Resolved<'a>>, AllocError>
        ensures same { self.new ≡ self.old }
        ensures found { IfOk result (λ found. option_map plain_resolved found
            ≡ resolved_inside self.old.sources name.now (plain_resolved outer.now)) }
    {
        let unit = outer.instance.type_name.name.name();
        if let Some(instances) = self.units.get(&unit) {
            return Ok(resolved_among(unit, instances, name));
        }
        let instances = instances_by_name(self.alloc, instances_of(self.view, &unit))?;
        let found = resolved_among(unit, &instances, name);
        self.units.insert(unit, instances)?;
        Ok(found)
    }

    /// Where names lead to, from an instance inwards.
    fn beyond(
        &mut self,
        start: &Resolved<'a>,
        names: &[&str],
    ) -> Result<Option<Resolved<'a>>, AllocError>
        ensures same { self.new ≡ self.old }
        ensures found { IfOk result (λ found. option_map plain_resolved found
            ≡ resolved_beyond self.old.sources (Some (plain_resolved start.now))
            (map (λ n. n.now) names.now)) }
    {
        let mut found = start.again();
        for name in names {
            match self.inside(&found, *name) {
                Ok(Some(inner)) => found = inner,
                Ok(None) => return Ok(None),
                Err(error) => return Err(error),
            }
        }
        Ok(Some(found))
    }

    /// The instance of that name in an application.
    fn begin(&self, application: &str, name: &str) -> Option<Resolved<'a>>
        ensures { option_map plain_resolved result
            ≡ resolved self.now (application.now ∷ (name.now ∷ [])) }
    {
        match self.applications.get(application) {
            Some(instances) => resolved_among(self.system, instances, name),
            None => None,
        }
    }

    /// Where names lead to, from an application inwards.
    fn from(
        &mut self,
        application: &str,
        names: &[&str],
    ) -> Result<Option<Resolved<'a>>, AllocError>
        ensures same { self.new ≡ self.old }
        ensures found { IfOk result (λ found. option_map plain_resolved found
            ≡ resolved self.old (application.now ∷ map (λ n. n.now) names.now)) }
    {
        match names.split_first() {
            Some((name, inner)) => match self.begin(application, *name) {
                Some(start) => self.beyond(&start, inner),
                None => Ok(None),
            },
            None => Ok(None),
        }
    }

    /// The instance that names lead to.
    fn at(&mut self, names: &[&str]) -> Result<Option<Resolved<'a>>, AllocError>
        ensures same { self.new ≡ self.old }
        ensures found { IfOk result (λ found. option_map plain_resolved found
            ≡ resolved self.old (map (λ n. n.now) names.now)) }
    {
        match names.split_first() {
            Some((application, inner)) => self.from(*application, inner),
            None => Ok(None),
        }
    }

    /// Whether the names lead to no application, block or subapplication instance.
    pub(crate) fn leads_nowhere(&mut self, names: &[&str]) -> Result<bool, AllocError>
        ensures same { self.new ≡ self.old }
        ensures nowhere { IfOk result (λ nowhere. nowhere
            ≡ leads_nowhere self.old.sources self.old.system
            (applications_in (tree_at self.old.sources self.old.system))
            (map (λ n. n.now) names.now)) }
    {
        match names.len() {
            0 => Ok(false),
            1 => Ok(!self.applications.contains_key(names[0])),
            _ => match self.at(names) {
                Ok(Some(found)) => Ok(!is_placed(found.instance.role)),
                Ok(None) => Ok(true),
                Err(error) => Err(error),
            },
        }
    }

    /// The instance at a path.
    fn at_path(&mut self, path: &str) -> Result<Option<Resolved<'a>>, AllocError>
        ensures same { self.new ≡ self.old }
        ensures found { IfOk result
            (λ found. option_map plain_resolved found ≡ resolved self.old (path_names path.now)) }
    {
        let names = path_names(self.alloc, path)?;
        self.at(&names)
    }

    /// The instance at a path, which is kept.
    fn look_at(&mut self, path: &str) -> Result<Option<Resolved<'a>>, AllocError>
        ensures same { self.new ≡ self.old }
        ensures found { IfOk result
            (λ found. option_map plain_resolved found ≡ resolved self.old (path_names path.now)) }
    {
        if self.last_path.as_str() == path {
            return Ok(again(&self.last));
        }
        match self.at_path(path) {
            Ok(found) => {
                self.last_path = String::from_str(self.alloc, path)?;
                self.last = again(&found);
                Ok(found)
            }
            Err(error) => Err(error),
        }
    }

    /// The instance at a path. What is at the path before its last name is kept for the next path.
    pub(crate) fn resolve(&mut self, path: &str) -> Result<Option<Resolved<'a>>, AllocError>
        ensures same { self.new ≡ self.old }
        ensures found { IfOk result
            (λ found. option_map plain_resolved found ≡ resolved self.old (path_names path.now)) }
    {
        if let Some((outer, name)) = split_last(path) {
            match self.look_at(outer) {
                Ok(Some(it)) => return self.inside(&it, name),
                Ok(None) => {}
                Err(error) => return Err(error),
            }
        }
        self.at_path(path)
    }
}
