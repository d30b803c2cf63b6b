//! What references mean (IEC 61499-1, 5.2.2: algorithms; 5.5: adapters).
ghost use Rattle.std.specs.{Prelude.{◌≡◌, [], ◌∷◌, ◌++◌, IfOk, IfSome, OnOk, Some, is_some}, Option.{option_copied}};
ghost use Rattle.fb_tree.specs.Expression.{reference_tree};
ghost use Rattle.fb_iface.specs.{CachedFields.{fields_shown, structures_in}, Names.{stands_for}, ScopeTypes.{scope_in}, Scope.{instance_ports}};
ghost use Rattle.fb_expr.specs.{Names.{names_in}, Spans.{names_span}};
ghost use Rattle.fb_expr.specs.References.{
  class_of_element,
  class_of_referent,
  class_with,
  data_referent,
  field_referent,
  fields_behind,
  fields_named,
  is_adapter,
  is_at_adapter,
  is_data,
  is_some_count,
  member_among,
  port_referent,
  reference_faults,
  referent_of,
  step,
  unless_judged,
  variable_named,
  walk,
};

use crate::names::Names;
use crate::spans::span_of_names;
use fb_iface::{
    Behind, Class, Code, DeclaredInstance, DeclaredVariable, Fault, PortsByName, Scope, Structures,
    UsedType, class_by_use, class_of,
};
use fb_tree::text::{Name, NameUse, Place, Span};
use fb_tree::{Member, Reference, Role, Section, TypeForm, TypeUse};
use std::alloc::AllocError;

/// What a reference means.
#[derive(Drop)]
pub enum Referent<'a> {
    /// A variable or a field of this type, and whether subscripts are after its name.
    Variable(UsedType<'a>, bool),
    /// Data of a plug or a socket whose type is not usable, or a name after a type that is not
    /// known.
    Unjudged,
    /// No variable.
    Unknown,
    /// A further name that is no field. It is here.
    NoMember(Span),
}

/// The class of what a reference means. One that means nothing is reported.
pub fn judge_names(
    names: Names<'_>,
    reference: &Reference,
    found: &mut Vec<Fault>,
) -> Result<Class, AllocError>
    ensures class { IfOk result (λ class. class
        ≡ class_of_referent (referent_of (names_in names.entry) (reference_tree reference.now))) }
    ensures faults { OnOk result (found.new.items ≡ found.old.items
        ++ reference_faults (referent_of (names_in names.entry) (reference_tree reference.now))
        (names_span (reference_tree reference.now))) }
{
    match reference.members().first() {
        Some(_) => {
            let referent = referred(names, reference);
            report_reference(&referent, span_of_names(reference), found)?;
            Ok(referent.class())
        }
        None => {
            let subscripted = reference.subscripts > 0;
            let place = reference.name_span();
            judge_variable(names.scope, &reference.name(), subscripted, place, found)
        }
    }
}

/// The class of a variable of the unit, without or with subscripts. A name that means none is reported.
pub fn judge_variable(
    scope: &Scope<'_>,
    name: &Name,
    subscripted: bool,
    place: Place,
    found: &mut Vec<Fault>,
) -> Result<Class, AllocError>
    ensures class { IfOk result (λ class. class
        ≡ class_of_referent (variable_named (scope_in scope.now) name.now subscripted)) }
    ensures faults { OnOk result (found.new.items ≡ found.old.items
        ++ reference_faults (variable_named (scope_in scope.now) name.now subscripted) place) }
{
    match scope.own().variable(name) {
        Some(variable) => Ok(class_of_use(variable.type_use(), subscripted)),
        None => {
            report_name(Code::VariableUnknown, place.span(), found)?;
            Ok(Class::Free)
        }
    }
}

/// What a reference means.
fn referred<'a>(names: Names<'a>, reference: &Reference) -> Referent<'a>
    ensures { result ≡ referent_of (names_in names.entry) (reference_tree reference.now) }
{
    let name = reference.name();
    let subscripted = reference.subscripts > 0;
    let members = reference.members();
    match members.first() {
        Some(second) if !subscripted => match adapter_named(names.scope.own(), &name) {
            Some(adapter) => {
                let port = referred_port(names.scope, &adapter, second);
                referred_behind(names, port, &members[1..])
            }
            None => referred_from(names, &name, subscripted, members),
        },
        _ => referred_from(names, &name, subscripted, members),
    }
}

/// What is referred to by further names after a variable of the unit.
fn referred_from<'a>(
    names: Names<'a>,
    name: &Name,
    subscripted: bool,
    members: &[Member],
) -> Referent<'a>
    ensures { result
        ≡ walk (names_in names.entry)
        (variable_named (names_in names.entry).scope name.now subscripted) members.now }
{
    let variable = referred_variable(names.scope, name, subscripted);
    referred_behind(names, variable, members)
}

/// What a name means by itself: a variable of the unit.
fn referred_variable<'a>(scope: &Scope<'a>, name: &Name, subscripted: bool) -> Referent<'a>
    ensures { result ≡ variable_named (scope_in scope.now) name.now subscripted }
{
    match scope.own().variable(name) {
        Some(variable) => Referent::Variable(UsedType::of(variable.type_use()), subscripted),
        None => Referent::Unknown,
    }
}

/// The plug or the socket that a name means.
fn adapter_named<'a>(own: &PortsByName<'a>, name: &Name) -> Option<DeclaredInstance<'a>>
    ensures found { is_some result ≡ is_at_adapter (stands_for own.now.instances name.now) }
    ensures named { IfSome result
        (λ adapter. stands_for own.now.instances name.now ≡ Some adapter) }
{
    match own.instance(name) {
        Some(instance) if is_for_adapters(instance.role()) => Some(instance),
        _ => None,
    }
}

fn is_for_adapters(role: Role) -> bool
    ensures { result ≡ is_adapter role }
{
    match role {
        Role::Plug | Role::Socket => true,
        Role::Block | Role::Subapplication => false,
    }
}

/// What a name means after that of a plug or a socket.
fn referred_port<'a>(
    scope: &Scope<'a>,
    adapter: &DeclaredInstance<'_>,
    member: &Member,
) -> Referent<'a>
    ensures { result
        ≡ port_referent (instance_ports (scope_in scope.now) adapter.now) member.now.name.name
        (is_some_count member.now.subscripts) }
{
    match scope.instance_ports(adapter) {
        Some(ports) => referred_data(ports, &member.name.name.name(), member.subscripts > 0),
        None => Referent::Unjudged,
    }
}

/// What a name means among the data of an adapter type.
fn referred_data<'a>(ports: &PortsByName<'a>, name: &Name, subscripted: bool) -> Referent<'a>
    ensures { result ≡ data_referent (stands_for ports.now.variables name.now) subscripted }
{
    match ports.variable(name) {
        Some(variable) if is_port(variable.section()) => {
            Referent::Variable(UsedType::of(variable.type_use()), subscripted)
        }
        _ => Referent::Unknown,
    }
}

/// Whether it is a section of data inputs or of data outputs.
fn is_port(section: Section) -> bool
    ensures { result ≡ is_data section }
{
    match section {
        Section::Input | Section::Output => true,
        Section::Internal | Section::Field => false,
    }
}

/// What is referred to by further names after what these names begin at.
fn referred_behind<'a>(names: Names<'a>, base: Referent<'a>, members: &[Member]) -> Referent<'a>
    ensures { result ≡ walk (names_in names.entry) base.entry members.now }
{
    let mut referent = base;
    for member in members {
        referent = referred_member(names, referent, member);
    }
    referent
}

/// What is referred to by one further name. After one that is unknown or not checked none is
/// checked.
fn referred_member<'a>(names: Names<'a>, referent: Referent<'a>, member: &Member) -> Referent<'a>
    ensures { result ≡ step (names_in names.entry) referent.entry member.now }
{
    match referent {
        Referent::Variable(used, subscripted) => {
            referred_field(behind(names.structures, used.get(), subscripted), member)
        }
        Referent::Unjudged | Referent::Unknown | Referent::NoMember(_) => referent,
    }
}

/// What may be named after a type, without or with a subscript.
fn behind<'a>(structures: &'a Structures<'a>, used: &TypeUse, subscripted: bool) -> Behind<'a>
    ensures { fields_shown result
        ≡ fields_behind (structures_in structures.now) used.now.form used.now.name.name
        subscripted }
{
    match (used.form, subscripted) {
        (TypeForm::Plain, false) | (TypeForm::Array, true) => {
            behind_named(structures, &used.name)
        }
        (TypeForm::Plain, true) => without_fields(behind_named(structures, &used.name)),
        (TypeForm::Array, false) | (TypeForm::Sized, _) => Behind::NoFields,
    }
}

/// What may be named after a plain type of this name. After one of class Free no name is checked.
fn behind_named<'a>(structures: &'a Structures<'a>, used: &NameUse) -> Behind<'a>
    ensures { fields_shown result ≡ fields_named (structures_in structures.now) used.now.name }
{
    if class_by_use(used).is_free() {
        Behind::NotChecked
    } else {
        structures.get(&used.name.name())
    }
}

/// What may be named after a subscript on what is no array: nothing, if names are checked there.
fn without_fields(behind: Behind<'_>) -> Behind<'_>
    ensures { fields_shown result ≡ unless_judged (fields_shown behind.entry) }
{
    match behind {
        Behind::NotChecked => Behind::NotChecked,
        Behind::NoFields | Behind::Fields(_) => Behind::NoFields,
    }
}

/// What a name means among these fields.
fn referred_field<'a>(behind: Behind<'a>, member: &Member) -> Referent<'a>
    ensures { result ≡ member_among (fields_shown behind.entry) member.now }
{
    match behind {
        Behind::NotChecked => Referent::Unjudged,
        Behind::NoFields => Referent::NoMember(member.name.span.span()),
        Behind::Fields(fields) => field_referent(fields.field(&member.name.name.name()), member),
    }
}

/// What a name means by the field that it names.
fn field_referent<'a>(field: Option<&DeclaredVariable<'a>>, member: &Member) -> Referent<'a>
    ensures { result ≡ field_referent (option_copied field.entry) member.now }
{
    match field {
        Some(field) => { Referent::Variable(UsedType::of(field.type_use()), member.subscripts > 0) }
        None => Referent::NoMember(member.name.span.span()),
    }
}

impl<'a> Referent<'a> {
    /// Its class. What is unknown or not checked meets every rule.
    fn class(&self) -> Class
        ensures { result ≡ class_of_referent self.now }
    {
        match self {
            Referent::Variable(used, subscripted) => class_of_use(used.get(), *subscripted),
            Referent::Unjudged | Referent::Unknown | Referent::NoMember(_) => Class::Free,
        }
    }
}

/// The class of a variable of this type, or of its element.
fn class_of_use(used: &TypeUse, subscripted: bool) -> Class
    ensures { result ≡ class_with used.now subscripted }
{
    if subscripted {
        element_class(used)
    } else {
        class_of(used)
    }
}

/// The class of the elements of an array. A type that is no array has other values.
fn element_class(used: &TypeUse) -> Class
    ensures { result ≡ class_of_element used.now.form used.now.name.name }
{
    match used.form {
        TypeForm::Array => class_by_use(&used.name),
        TypeForm::Plain | TypeForm::Sized => Class::O,
    }
}

/// Reports a name that is no variable, or a further one that is no field. `span` is that of the
/// names that mean a variable.
fn report_reference(
    referent: &Referent<'_>,
    span: Span,
    found: &mut Vec<Fault>,
) -> Result<(), AllocError>
    ensures { OnOk result
        (found.new.items ≡ found.old.items ++ reference_faults referent.now span) }
{
    match referent {
        Referent::Variable(_, _) | Referent::Unjudged => Ok(()),
        Referent::Unknown => report_name(Code::VariableUnknown, span, found),
        Referent::NoMember(at) => report_name(Code::MemberUnknown, *at, found),
    }
}

/// Reports a name that does not mean what it should.
fn report_name(code: Code, span: Span, found: &mut Vec<Fault>) -> Result<(), AllocError>
    ensures { OnOk result
        (found.new.items ≡ found.old.items ++ (record { code = code; span = span } ∷ [])) }
{
    found.push(Fault { code, span })?;
    Ok(())
}
