ghost use Rattle.core_rule.specs.growth.GraphLaws.{UnreachedStaysSo, EachObjectStays};
ghost use Rattle.heap_model.specs.graph.OwnGraphs.{EachOwnGraphIsWithin};

/// What holds of the graphs of every legal history as it goes on: a collector may free what isn't reached for good.
pub fn graph_laws()
    ensures unreached { UnreachedStaysSo }
    ensures stays { EachObjectStays }
    ensures own { EachOwnGraphIsWithin }
{}
