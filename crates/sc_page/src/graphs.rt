//! The graph of the stages of a run.
#![tactic(auto)]

use crate::texts::{begin_drawing, write_text};
use sc_ids::StageId;
use sc_story::{Edge, JobPlaces, ScriptText, StagePlace, edges_of};
use std::alloc::{AllocError, Global};

/// How far boxes stand apart, and how large they are.
const COLUMN: usize = 210;

const ROW: usize = 52;

const WIDTH: usize = 170;

const HEIGHT: usize = 36;

/// Where a stage is drawn: how many stages stand before it, one behind the other, and how many of
/// the same column above it.
#[derive(Clone, Copy)]
struct Cell {
    stage: StageId,
    column: usize,
    row: usize,
}

/// Writes the graph of the stages of a script's jobs: a box for each, and a line from each that
/// makes what another one reads.
pub(crate) fn write_graph(
    alloc: Global,
    out: &mut String,
    text: &ScriptText,
    places: &JobPlaces,
) -> Result<(), AllocError> {
    let edges = edges_of(alloc, text.script(), places)?;
    let cells = cells_of(alloc, places.stages(), edges.as_slice())?;
    let cells = cells.as_slice();
    let (width, height) = size_of(cells);
    begin_drawing(out, width, height)?;
    write_edges(out, cells, edges.as_slice())?;
    write_boxes(out, cells, places.stages(), text)?;
    out.push_str("</svg>\n")
}

/// How large a drawing of cells is.
fn size_of(cells: &[Cell]) -> (usize, usize) {
    let mut columns: usize = 0;
    let mut rows: usize = 0;
    for cell in cells {
        columns = columns.max(cell.column.saturating_add(1));
        rows = rows.max(cell.row.saturating_add(1));
    }
    (columns.saturating_mul(COLUMN), rows.saturating_mul(ROW))
}

/// Writes the lines from each stage to those that read it.
fn write_edges(out: &mut String, cells: &[Cell], edges: &[Edge]) -> Result<(), AllocError> {
    for edge in edges {
        write_edge(out, cells, *edge)?;
    }
    Ok(())
}

/// Writes the boxes of stages.
fn write_boxes(
    out: &mut String,
    cells: &[Cell],
    stages: &[StagePlace],
    text: &ScriptText,
) -> Result<(), AllocError> {
    for stage in stages {
        write_box(out, cells, *stage, text)?;
    }
    Ok(())
}

/// The cells of stages.
fn cells_of(alloc: Global, stages: &[StagePlace], edges: &[Edge]) -> Result<Vec<Cell>, AllocError> {
    let mut cells = Vec::new(alloc);
    for stage in stages {
        let column = column_of(cells.as_slice(), edges, stage.stage);
        let row = row_in(cells.as_slice(), column);
        cells.push(Cell {
            stage: stage.stage,
            column,
            row,
        })?;
    }
    Ok(cells)
}

/// The column of a stage: behind those of all that it reads.
fn column_of(cells: &[Cell], edges: &[Edge], stage: StageId) -> usize {
    let mut column: usize = 0;
    for edge in edges {
        if edge.to == stage {
            if let Some(cell) = cell_of(cells, edge.from) {
                column = column.max(cell.column.saturating_add(1));
            }
        }
    }
    column
}

/// The next row of a column.
fn row_in(cells: &[Cell], column: usize) -> usize {
    let mut row: usize = 0;
    for cell in cells {
        if cell.column == column {
            row = row.saturating_add(1);
        }
    }
    row
}

/// The cell of a stage.
fn cell_of(cells: &[Cell], stage: StageId) -> Option<Cell> {
    for cell in cells {
        if cell.stage == stage {
            return Some(*cell);
        }
    }
    None
}

/// Writes the line from a stage to one that reads it.
fn write_edge(out: &mut String, cells: &[Cell], edge: Edge) -> Result<(), AllocError> {
    let (Some(from), Some(to)) = (cell_of(cells, edge.from), cell_of(cells, edge.to)) else {
        return Ok(());
    };
    let x = from.column.saturating_mul(COLUMN).saturating_add(WIDTH);
    let y = middle_of(from);
    let to_x = to.column.saturating_mul(COLUMN);
    let to_y = middle_of(to);
    writeln!(
        out,
        "<line x1=\"{x}\" y1=\"{y}\" x2=\"{to_x}\" y2=\"{to_y}\"/>"
    )
}

/// The height at which lines meet a cell.
fn middle_of(cell: Cell) -> usize {
    cell.row.saturating_mul(ROW).saturating_add(HEIGHT / 2)
}

/// Writes the box of a stage: its number, and the line whose rows its tasks compute.
fn write_box(
    out: &mut String,
    cells: &[Cell],
    place: StagePlace,
    text: &ScriptText,
) -> Result<(), AllocError> {
    let Some(cell) = cell_of(cells, place.stage) else {
        return Ok(());
    };
    let x = cell.column.saturating_mul(COLUMN);
    let y = cell.row.saturating_mul(ROW);
    write_title(out, x, y, place, text)?;
    let stage = place.stage;
    write!(
        out,
        "<text x=\"{x}\" y=\"{y}\" dx=\"8\" dy=\"22\">stage {stage}: "
    )?;
    write_name(out, place, text)?;
    out.push_str("</text></g>\n")
}

/// Writes the frame of a box, and what stands where the pointer rests on it.
fn write_title(
    out: &mut String,
    x: usize,
    y: usize,
    place: StagePlace,
    text: &ScriptText,
) -> Result<(), AllocError> {
    write!(
        out,
        "<g><rect class=\"stage\" x=\"{x}\" y=\"{y}\" \
         width=\"{WIDTH}\" height=\"{HEIGHT}\"/><title>"
    )?;
    write_definition(out, place, text)?;
    out.push_str("</title>")
}

/// Writes the line that defines what a stage's tasks compute.
fn write_definition(
    out: &mut String,
    place: StagePlace,
    text: &ScriptText,
) -> Result<(), AllocError> {
    match text.definition(place.node) {
        Some(known) => {
            let line = known.line;
            write!(out, "line {line}: ")?;
            write_text(out, text.content(known))
        }
        None => Ok(()),
    }
}

/// Writes the name of what a stage's tasks compute.
fn write_name(out: &mut String, place: StagePlace, text: &ScriptText) -> Result<(), AllocError> {
    match text.definition(place.node) {
        Some(known) => write_text(out, known.name.as_str()),
        None => Ok(()),
    }
}
