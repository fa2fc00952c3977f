//! A network with the arcs at each vertex, as searches and rounds read it.

ghost use Rattle.std.specs.Prelude.{◌≡◌, ◌<◌};
ghost use Rattle.stage_flow.specs.Residual.{vertex_count};
ghost use Rattle.stage_flow.specs.Given.{AreIncidences, IsRow};

use crate::incidence::Incidence;
use crate::ways::Near;
use flow_net::Net;
use std::marker::Model;

/// A network, with the arcs at each vertex. Contracts see the network.
#[derive(Drop)]
pub(crate) struct Arcs<'a> {
    net: &'a Net,
    incidence: &'a Incidence,
}

impl<'a> Model for Arcs<'a> {
    ghost use Rattle.flow_net.specs.declared.net.Net.{Net as TheNet};
    ghost use Rattle.stage_flow.specs.Given.{AreIncidences};

    ghost Value = { TheNet };

    ghost view = { λ it. it.net.now };

    ghost invariant = { λ it. AreIncidences it.net.now it.incidence.now };
}

impl<'a> Arcs<'a> {
    /// A network and its arcs.
    pub(crate) fn new(net: &'a Net, incidence: &'a Incidence) -> Arcs<'a>
        requires { AreIncidences net.now incidence.now }
        ensures { result ≡ net.now }
    {
        Arcs { net, incidence }
    }

    /// The network.
    pub(crate) fn net(&self) -> &'a Net
        ensures { result.now ≡ self.now }
    {
        self.net
    }

    /// The arcs at a vertex, in the order of their numbers.
    pub(crate) fn at(&self, vertex: u32) -> &'a [Near]
        requires { vertex < vertex_count self.now }
        ensures { IsRow self.now vertex result.now }
    {
        self.incidence.at(vertex)
    }
}
