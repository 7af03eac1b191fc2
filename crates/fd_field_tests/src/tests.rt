// Messages and streams of them, their keys, numbers and values, and what is printed of these.
mod ensemble;
mod field;
mod generator;
mod key;
mod listing;
mod packing;
mod scaled;
mod sections;
mod split;
mod templates;
