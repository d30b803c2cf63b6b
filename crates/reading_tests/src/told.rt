//! What is read, in words: of a list one part after the other, and a place as `3..5`, from the first byte up to the one after.
use fb_library::parse::{Body, Source};
use fb_text::{Name, NameUse, Place, Span, Token, TokenFault};
use fb_tree::{
    Algorithm, Application, Chart, Condition, Connection, Constant, Counting, Decl, Device, End,
    Event, Expr, Instance, Mapping, Member, Network, Parameter, Reference, Simple, State, Stmt,
    Structure, System, Transition, TypeDeclaration, Variables,
};
use std::alloc::{AllocError, Global};

/// What can be written in words.
pub trait Tell {
    /// Adds the words to what was written.
    fn tell(&self, told: &mut String) -> Result<(), AllocError>;
}

/// The words for it.
pub fn words<T: Tell>(alloc: Global, found: &T) -> Result<String, AllocError> {
    let mut told = String::new(alloc);
    found.tell(&mut told)?;
    Ok(told)
}

/// Adds a mark and the words for what was found.
fn tell_after<T: Tell>(mark: &str, found: &T, told: &mut String) -> Result<(), AllocError> {
    told.push_str(mark)?;
    found.tell(told)
}

impl<T: Tell> Tell for Vec<T> {
    fn tell(&self, told: &mut String) -> Result<(), AllocError> {
        for item in self {
            if !told.is_empty() {
                told.push_str("; ")?;
            }
            item.tell(told)?;
        }
        Ok(())
    }
}

impl Tell for Span {
    fn tell(&self, told: &mut String) -> Result<(), AllocError> {
        write!(told, " {}..{}", self.start, self.end)
    }
}

impl Tell for Place {
    fn tell(&self, told: &mut String) -> Result<(), AllocError> {
        self.span().tell(told)
    }
}

impl Tell for Token {
    fn tell(&self, told: &mut String) -> Result<(), AllocError> {
        write!(told, "{:?}", self.kind)?;
        self.span.tell(told)
    }
}

impl Tell for Result<Vec<Token>, TokenFault> {
    fn tell(&self, told: &mut String) -> Result<(), AllocError> {
        match self {
            Ok(tokens) => tokens.tell(told),
            Err(TokenFault::BadToken(span)) => tell_after("never closed", span, told),
            Err(TokenFault::Memory) => told.push_str("no memory"),
        }
    }
}

impl Tell for NameUse {
    fn tell(&self, told: &mut String) -> Result<(), AllocError> {
        told.push_str(self.name.as_str())?;
        self.span.tell(told)
    }
}

/// Adds names, each with a blank after it.
pub fn say_names(told: &mut String, names: &[Name]) -> Result<(), AllocError> {
    for name in names {
        write!(told, "{name} ")?;
    }
    Ok(())
}

/// The same alone.
pub fn names_told(alloc: Global, names: &[Name]) -> Result<String, AllocError> {
    let mut told = String::new(alloc);
    say_names(&mut told, names)?;
    Ok(told)
}

/// Names with a mark before the first, and one between any two.
fn tell_names(
    mark: &str,
    between: &str,
    names: &[NameUse],
    told: &mut String,
) -> Result<(), AllocError> {
    for (i, name) in names.iter().enumerate() {
        told.push_str(if i == 0 { mark } else { between })?;
        told.push_str(name.name.as_str())?;
    }
    Ok(())
}

/// A name, if there is one, with a mark before it.
fn tell_name(mark: &str, name: &Option<NameUse>, told: &mut String) -> Result<(), AllocError> {
    if let Some(name) = name {
        told.push_str(mark)?;
        told.push_str(name.name.as_str())?;
    }
    Ok(())
}

impl Tell for Event {
    fn tell(&self, told: &mut String) -> Result<(), AllocError> {
        write!(told, "{:?} {}", self.side, self.name.name.as_str())?;
        tell_name(":", &self.type_name, told)?;
        tell_names(" WITH ", ",", self.with.as_slice(), told)
    }
}

impl Tell for Simple {
    fn tell(&self, told: &mut String) -> Result<(), AllocError> {
        match self {
            Simple::Literal(literal) => {
                write!(told, "{:?}", literal.form)?;
                literal.span.tell(told)
            }
            Simple::Name(name) => name.tell(told),
        }
    }
}

impl Tell for Constant {
    fn tell(&self, told: &mut String) -> Result<(), AllocError> {
        match self {
            Constant::One(value) => value.tell(told),
            Constant::List(values, span) => {
                for (i, value) in values.iter().enumerate() {
                    tell_after(if i == 0 { "[" } else { ", " }, value, told)?;
                }
                told.push_str("]")?;
                span.tell(told)
            }
        }
    }
}

impl Tell for Variables {
    fn tell(&self, told: &mut String) -> Result<(), AllocError> {
        write!(told, "{:?}", self.section)?;
        tell_names(" ", ",", self.names.as_slice(), told)?;
        let used = &self.type_use;
        write!(told, ":{:?} {}", used.form, used.name.name.as_str())?;
        used.span.tell(told)?;
        match &self.initial {
            Some(value) => tell_after(" := ", value, told),
            None => Ok(()),
        }
    }
}

fn tell_parameters(parameters: &[Parameter], told: &mut String) -> Result<(), AllocError> {
    for parameter in parameters {
        write!(told, "({} := ", parameter.name.name.as_str())?;
        parameter.value.tell(told)?;
        told.push_str(")")?;
    }
    Ok(())
}

impl Tell for Instance {
    fn tell(&self, told: &mut String) -> Result<(), AllocError> {
        let (name, type_name) = (self.name.name.as_str(), self.type_name.name.as_str());
        write!(told, "{:?} {name}:{type_name}", self.role)?;
        tell_parameters(self.parameters.as_slice(), told)
    }
}

impl Tell for End {
    fn tell(&self, told: &mut String) -> Result<(), AllocError> {
        told.push_str(self.name.name.as_str())?;
        tell_name(".", &self.port, told)
    }
}

impl Tell for Connection {
    fn tell(&self, told: &mut String) -> Result<(), AllocError> {
        write!(told, "{:?} ", self.sort)?;
        self.source.tell(told)?;
        tell_after(" TO ", &self.destination, told)
    }
}

impl Tell for Network {
    fn tell(&self, told: &mut String) -> Result<(), AllocError> {
        self.instances.tell(told)?;
        self.connections.tell(told)?;
        told.push_str(if self.is_written { "; a network" } else { "" })
    }
}

impl Tell for State {
    fn tell(&self, told: &mut String) -> Result<(), AllocError> {
        told.push_str(self.name.name.as_str())?;
        for (i, action) in self.actions.iter().enumerate() {
            told.push_str(if i == 0 { ": " } else { ", " })?;
            tell_name("", &action.algorithm, told)?;
            if let Some(event) = &action.event {
                tell_after("->", event, told)?;
            }
        }
        Ok(())
    }
}

impl Tell for Condition {
    fn tell(&self, told: &mut String) -> Result<(), AllocError> {
        match self {
            Condition::Always(_) => told.push_str("1"),
            Condition::Event(event) => event.tell(told),
            Condition::Guarded(event, test) => {
                event.tell(told)?;
                tell_after(" & ", test, told)
            }
            Condition::Guard(test) => test.tell(told),
        }
    }
}

impl Tell for Transition {
    fn tell(&self, told: &mut String) -> Result<(), AllocError> {
        let (source, destination) = (self.source.name.as_str(), self.destination.name.as_str());
        write!(told, "{source} TO {destination} := ")?;
        self.condition.tell(told)
    }
}

impl Tell for Algorithm {
    fn tell(&self, told: &mut String) -> Result<(), AllocError> {
        let (name, language) = (self.name.name.as_str(), self.language.name.as_str());
        write!(told, "{name} IN {language} {}", self.statements.len())
    }
}

impl Tell for Chart {
    fn tell(&self, told: &mut String) -> Result<(), AllocError> {
        self.states.tell(told)?;
        self.transitions.tell(told)?;
        self.algorithms.tell(told)?;
        told.push_str(if self.is_written { "; a chart" } else { "" })
    }
}

impl Tell for Application {
    fn tell(&self, told: &mut String) -> Result<(), AllocError> {
        write!(told, "APPLICATION {}", self.name.name.as_str())?;
        self.network.tell(told)
    }
}

impl Tell for Device {
    fn tell(&self, told: &mut String) -> Result<(), AllocError> {
        let (name, type_name) = (self.name.name.as_str(), self.type_name.name.as_str());
        write!(told, "DEVICE {name}:{type_name}")?;
        tell_parameters(self.parameters.as_slice(), told)?;
        for resource in &self.resources {
            let (name, type_name) = (&resource.name.name, &resource.type_name.name);
            write!(told, " {}:{}", name.as_str(), type_name.as_str())?;
            tell_parameters(resource.parameters.as_slice(), told)?;
        }
        Ok(())
    }
}

impl Tell for Mapping {
    fn tell(&self, told: &mut String) -> Result<(), AllocError> {
        tell_names("", ".", self.path.as_slice(), told)?;
        let (device, resource) = (self.device.name.as_str(), self.resource.name.as_str());
        write!(told, " ON {device}.{resource}")
    }
}

impl Tell for TypeDeclaration {
    fn tell(&self, told: &mut String) -> Result<(), AllocError> {
        self.name.tell(told)?;
        self.interface.events.tell(told)?;
        self.interface.variables.tell(told)?;
        self.network.tell(told)?;
        self.chart.tell(told)
    }
}

impl Tell for System {
    fn tell(&self, told: &mut String) -> Result<(), AllocError> {
        self.name.tell(told)?;
        self.applications.tell(told)?;
        self.devices.tell(told)?;
        self.mappings.tell(told)
    }
}

impl Tell for Structure {
    fn tell(&self, told: &mut String) -> Result<(), AllocError> {
        self.name.tell(told)?;
        self.fields.tell(told)
    }
}

impl Tell for Decl {
    fn tell(&self, told: &mut String) -> Result<(), AllocError> {
        match self {
            Decl::Block(declared) => tell_after("block ", declared, told),
            Decl::Adapter(declared) => tell_after("adapter ", declared, told),
            Decl::Subapplication(declared) => tell_after("subapplication ", declared, told),
            Decl::System(system) => tell_after("system ", system, told),
            Decl::Structure(structure) => tell_after("structure ", structure, told),
        }
    }
}

impl Tell for Source {
    fn tell(&self, told: &mut String) -> Result<(), AllocError> {
        write!(told, "{} is ", self.unit())?;
        match self.body() {
            Body::Tree(declared) => declared.tell(told),
            Body::Broken(span) => tell_after("broken", span, told),
        }
    }
}

impl Tell for Expr {
    fn tell(&self, told: &mut String) -> Result<(), AllocError> {
        tell_expression(self, told)
    }
}

impl Tell for Stmt {
    fn tell(&self, told: &mut String) -> Result<(), AllocError> {
        tell_statement(self, told)
    }
}

/// A literal by its form, an operator with its place, and a row of operators of one strength in braces.
#[cycle(tell_expression)]
fn tell_expression(expression: &Expr, told: &mut String) -> Result<(), AllocError> {
    match expression {
        Expr::Literal(literal) => write!(told, "{:?}", literal.form),
        Expr::Name(used) => told.push_str(used.name.as_str()),
        Expr::Reference(reference, subscripts) => {
            tell_reference(reference, subscripts.as_slice(), told)
        }
        Expr::Unary(operator, operand) => {
            let Span { start, end } = operator.span.span();
            write!(told, "{:?} {start}..{end} ", operator.operator)?;
            tell_expression(operand, told)
        }
        Expr::Pair(pair) => {
            let Span { start, end } = pair.1.span.span();
            told.push_str("{")?;
            tell_expression(&pair.0, told)?;
            write!(told, " {:?} {start}..{end} ", pair.1.operator)?;
            tell_expression(&pair.2, told)?;
            told.push_str("}")
        }
        Expr::Row(first, operands) => {
            told.push_str("{")?;
            tell_expression(first, told)?;
            for (operator, operand) in operands {
                let Span { start, end } = operator.span.span();
                write!(told, " {:?} {start}..{end} ", operator.operator)?;
                tell_expression(operand, told)?;
            }
            told.push_str("}")
        }
        Expr::Parentheses(inner, _) => {
            told.push_str("(")?;
            tell_expression(inner, told)?;
            told.push_str(")")
        }
    }
}

/// A reference, with its subscripts after the names that have them, each in brackets. One that is of no name has a `+` before it.
#[cycle(tell_expression)]
fn tell_reference(
    reference: &Reference,
    subscripts: &[Expr],
    told: &mut String,
) -> Result<(), AllocError> {
    let name = reference.name();
    told.push_str(name.as_str())?;
    let mut left = reference.subscripts;
    let mut members = reference.members();
    for subscript in subscripts {
        (left, members) = tell_members(left, members, told)?;
        told.push_str(if left == 0 { "+[" } else { "[" })?;
        tell_expression(subscript, told)?;
        told.push_str("]")?;
        left = left.saturating_sub(1);
    }
    tell_members(left, members, told)?;
    Ok(())
}

/// Adds names, each after a point, up to one that has subscripts, if none are left of the names before. Gives how many are left then, and
/// the names after.
fn tell_members<'a>(
    left: usize,
    members: &'a [Member],
    told: &mut String,
) -> Result<(usize, &'a [Member]), AllocError> {
    if left > 0 {
        return Ok((left, members));
    }
    for (i, member) in members.iter().enumerate() {
        write!(told, ".{}", member.name.name.as_str())?;
        if member.subscripts > 0 {
            return Ok((member.subscripts, members.get(i + 1..).unwrap_or(&[])));
        }
    }
    Ok((0, &[]))
}

/// What is done is in parentheses after the condition.
#[cycle(tell_statement)]
fn tell_statement(statement: &Stmt, told: &mut String) -> Result<(), AllocError> {
    match statement {
        Stmt::Empty => told.push_str("EMPTY"),
        Stmt::Set(name, _, value) => {
            told.push_str(name.name.as_str())?;
            tell_after(" := ", value, told)
        }
        Stmt::Assign(variable, subscripts, _, value) => {
            tell_reference(variable, subscripts.as_slice(), told)?;
            tell_after(" := ", value, told)
        }
        Stmt::Exit => told.push_str("EXIT"),
        Stmt::Return => told.push_str("RETURN"),
        Stmt::If(arms, otherwise) => {
            for (condition, body) in arms {
                tell_after("IF ", condition, told)?;
                tell_body("", body.as_slice(), told)?;
                told.push_str(" ")?;
            }
            tell_body("ELSE", otherwise.as_slice(), told)
        }
        Stmt::Case(selector, cases, otherwise) => {
            tell_after("CASE ", selector, told)?;
            tell_body("", cases.as_slice(), told)?;
            tell_body(" ELSE", otherwise.as_slice(), told)
        }
        Stmt::For(counting, body) => {
            tell_counting(counting, told)?;
            tell_body("", body.as_slice(), told)
        }
        Stmt::While(condition, body) => {
            tell_after("WHILE ", condition, told)?;
            tell_body("", body.as_slice(), told)
        }
        Stmt::Repeat(body, condition) => {
            tell_body("REPEAT", body.as_slice(), told)?;
            tell_after(" UNTIL ", condition, told)
        }
    }
}

/// Statements in parentheses after a mark.
#[cycle(tell_statement)]
fn tell_body(mark: &str, body: &[Stmt], told: &mut String) -> Result<(), AllocError> {
    write!(told, "{mark} (")?;
    for (i, statement) in body.iter().enumerate() {
        told.push_str(if i == 0 { "" } else { "; " })?;
        tell_statement(statement, told)?;
    }
    told.push_str(")")
}

fn tell_counting(counting: &Counting, told: &mut String) -> Result<(), AllocError> {
    write!(told, "FOR {} := ", counting.variable.name.as_str())?;
    tell_expression(&counting.from, told)?;
    tell_after(" TO ", &counting.to, told)?;
    match &counting.by {
        Some(by) => tell_after(" BY ", by, told),
        None => Ok(()),
    }
}
