//! Large schedules through the program: each whole report is the one that another program gives.
mod data;
mod reports;
