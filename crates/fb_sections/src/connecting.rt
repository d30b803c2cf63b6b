//! Connections and their ends.

ghost use Rattle.fb_grammar.specs.{Gives.{Gives}, Reading.{read}};
ghost use Rattle.fb_sections.specs.Network.{connection, connections, end};
ghost use Rattle.fb_tree.specs.declared.network.Connection.{Connection};
ghost use Rattle.std.specs.Prelude.{◌≡◌, IfOk};

use crate::frame::{optional_name, section};
use fb_grammar::{Kind, Reader, Stop, Tokens, is_next, key, name};
use fb_tree::{Connection, End, Sort};
use std::alloc::Global;

/// An end of a connection.
#[tactic(auto, unfolding(crate::specs::Network::end))]
pub fn end(alloc: Global, tokens: &mut Tokens<'_>) -> Result<End, Stop>
    ensures { Gives (λ end. end) result tokens.new (read end tokens.old) }
{
    let name = name(alloc, tokens)?;
    let port = optional_name(alloc, tokens, Kind::Point)?;
    Ok(End { name, port })
}

/// Reads connections of a sort.
#[derive(Drop)]
struct ConnectionReader {
    sort: Sort,
}

impl Reader for ConnectionReader {
    type Item = Connection;

    ghost Tree = { Connection };

    ghost view = { λ connection. connection };

    ghost reads = { λ reader. read (connection reader.sort) };

    #[tactic(auto, unfolding(crate::specs::Network::connection))]
    fn read(&self, alloc: Global, tokens: &mut Tokens<'_>) -> Result<Connection, Stop> {
        let source = end(alloc, tokens)?;
        key(tokens, Kind::To)?;
        let destination = end(alloc, tokens)?;
        key(tokens, Kind::Semicolon)?;
        let connection = Connection {
            sort: self.sort,
            source,
            destination,
        };
        Ok(connection)
    }
}

/// A section of connections.
#[tactic(auto, unfolding(crate::specs::Network::connections, crate::specs::Network::connection, crate::specs::Network::end, fb_grammar::specs::Words::name), using(fb_grammar::proofs::Repeating::as_they_are))]
pub fn connections(alloc: Global, tokens: &mut Tokens<'_>) -> Result<Vec<Connection>, Stop>
    ensures { Gives (λ connections. connections.items) result tokens.new (read connections tokens.old) }
{
    if is_next(tokens, &[Kind::EventConnections]) {
        section(
            Kind::EventConnections,
            &ConnectionReader { sort: Sort::Event },
            Kind::EndConnections,
            alloc,
            tokens,
        )
    } else if is_next(tokens, &[Kind::DataConnections]) {
        section(
            Kind::DataConnections,
            &ConnectionReader { sort: Sort::Data },
            Kind::EndConnections,
            alloc,
            tokens,
        )
    } else {
        section(
            Kind::AdapterConnections,
            &ConnectionReader {
                sort: Sort::Adapter,
            },
            Kind::EndConnections,
            alloc,
            tokens,
        )
    }
}
