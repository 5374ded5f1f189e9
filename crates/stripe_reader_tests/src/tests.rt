// Each test reads a window of three stripes.
mod cases;
mod faults;
mod gates;
mod kept;
mod lengths;
mod readers;
mod scene;
mod shares;
